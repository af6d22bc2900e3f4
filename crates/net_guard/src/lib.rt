//! The judge against forwarding loops: it lets the tables of a network stand only where no packet comes back to a place
//! where it was.
//!
//! `Guard::first_found` answers what stands first against the tables: a row that changes packets on their way to a link,
//! or the least value of the guarded field, and the least place, for which a place leads to itself. `Guard::allows` is
//! true exactly where nothing does (`value`, `free`), and then no packet that each switch forwards by the row that it takes
//! (`rows_taken_are_hit`) comes back to a place where it was (`comes_back`). Where rows name no other field, each loop is the way of some packet
//! (`loops_are_walked`). Neither takes memory. `ChosenJudge` is the one judge of a program: all tables, a quota
//! for each table, or a guard; `ChosenJudge::refusal` answers what stands first against tables that it refuses.
#![tactic(auto)]

mod bits;
mod closing;
mod edits;
mod found;
mod guard;
mod hop;
mod laws;
mod leading;
mod looping;
mod quota;
mod refusal;
mod scope;
mod taking;
mod values;

pub use found::Found;
pub use guard::Guard;
pub use guard_rule::{GuardField, GuardRule, Link};
pub use hop::Hop;
pub use laws::{loops_are_walked, rows_taken_are_hit};
pub use quota::{ChosenJudge, Quota};
pub use refusal::Refusal;
pub use scope::Scope;
