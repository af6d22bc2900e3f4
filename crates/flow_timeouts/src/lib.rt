//! When a flow entry goes: the deadline that its timeouts set, and what is left of a hard timeout, in whole seconds.
//!
//! `deadline` is the earlier of the two; a tie counts as hard (`none`, `value`). `remaining` is what is left of a hard
//! timeout (`value`, `counts`). Law: `hard_deadline_stays`.
#![tactic(auto)]

mod laws;
mod timeouts;

pub use laws::hard_deadline_stays;
pub use timeouts::{LAST_MOMENT, Reason, deadline, remaining};
