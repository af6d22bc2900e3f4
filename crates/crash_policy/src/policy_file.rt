//! What a policy says.

use guard_rule::GuardRule;

/// What follows a failed turn. The turn itself is always undone.
#[derive(Clone, Copy, Debug, PartialEq, Eq)]
pub enum Policy {
    /// The application is restarted, and the event is skipped for it.
    Absolute,
    /// The application is restarted, and given other events in place of this one.
    Equivalence,
    /// The application is not restarted.
    None,
}

/// What is asked of the tables when a turn is done.
#[derive(Clone, Copy, Debug, PartialEq, Eq)]
pub(crate) enum Judge {
    /// Nothing.
    All,
    /// That each has at most so many entries.
    Quota,
    /// That they send no packet back to a place where it was.
    Guard,
}

/// What a policy says of one application.
#[derive(Debug, Drop, PartialEq, Eq)]
pub struct AppRule {
    /// 1 to 32 of `a` to `z`, `0` to `9`, `_`.
    pub name: String,
    /// The program and its words: 1 to 16 texts, or none where the policy names no program.
    pub command: Vec<String>,
    pub policy: Policy,
    /// The policy of each kind of event, in the order of the kinds' numbers.
    pub rules: [Policy; 6],
    /// Which kinds of events the application is given, in the same order.
    pub events: [bool; 6],
    /// The most frames of one turn: 1 to 100,000.
    pub budget: u32,
}

/// What a policy says: the applications in the order in which they are started and given events.
#[derive(Debug, Drop, PartialEq, Eq)]
pub struct PolicyFile {
    /// The most entries of a flow table, where the judge counts them.
    pub quota: Option<u32>,
    /// The links, and the field by which rows send packets over them, where the judge looks for loops.
    pub guard: Option<GuardRule>,
    /// 1 to 32 applications, with different names.
    pub apps: Vec<AppRule>,
}
