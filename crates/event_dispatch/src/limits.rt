//! How much the engine takes at most. All of these are our own choice.

/// How many items a batch has at most.
pub const MOST_ITEMS: u32 = 1_000_000;

/// How many events are dispatched after a batch; the rest waits for the next one.
pub const MOST_EVENTS: u32 = 1_000;

/// How many bytes an event may have in a frame whose length four bytes can say.
pub const MOST_BODY: usize = 0xffff_ffff - 26;
