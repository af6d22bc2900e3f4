//! Which packets a graph of places is about.

/// The packets whose ways are looked at.
#[derive(Clone, Copy, Debug, PartialEq, Eq)]
pub enum Scope {
    /// All packets: each row of a table counts, whatever its fields are.
    Every,
    /// Those with this value in the guarded field; `None` is any value that no row names.
    Value(Option<u64>),
}
