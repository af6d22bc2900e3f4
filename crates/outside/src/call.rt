//! Calls of a world that are to fail.

/// The calls of a world, by how they fail.
#[derive(Clone, Copy, Debug, PartialEq, Eq)]
pub enum CallKind {
    /// `open` answers `Shut`.
    Open,
    /// `next` answers `Failed`.
    Next,
    /// `start` of the application answers `NotStarted`.
    Start,
    /// `give` to the application answers `Gone`.
    Give,
    /// `take` from the application answers `Closed`.
    TakeClosed,
    /// `take` from the application answers `Silent`.
    TakeSilent,
    /// `send` to the switch or `recv` from it answers `Failed`, and the switch is lost: it is out until it joins again.
    Link,
    /// Any call that can answer `Short` does.
    Short,
}

/// The `number`-th call of a kind, counted from 1, is to fail; `of` is the switch's number or the application's
/// index, and says nothing for `Open`, `Next` and `Short`. A call that answered `Short` is not counted but for
/// `Short` itself.
#[derive(Clone, Copy, Debug, PartialEq, Eq)]
pub struct FailCall {
    pub kind: CallKind,
    pub of: u64,
    pub number: u64,
}
