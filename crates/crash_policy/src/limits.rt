//! What a policy may ask for at most, and what holds where it says nothing (docs/POLICY.md).

use of_types::limits::BUDGET;

/// How many applications a policy has at most.
pub const MOST_APPS: usize = 32;

/// How many bytes the name of an application has at most.
pub const MOST_NAME_BYTES: usize = 32;

/// How many words a command has at most, the program among them.
pub const MOST_COMMAND_WORDS: usize = 16;

/// How many frames a policy lets a turn have at most.
pub const MOST_BUDGET: u32 = 100_000;

/// How many links a guard looks at at most.
pub const MOST_LINKS: usize = 64;

/// The highest number of a port with a link.
pub const MOST_PORT: u16 = 65_280;

/// How many frames a turn has at most where the policy does not say.
pub const DEFAULT_BUDGET: u32 = BUDGET;
