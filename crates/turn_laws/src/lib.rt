//! Laws of turns: in a world that keeps its word, a turn goes as the reference controller plays it.
//!
//! There is no call here but laws, each the contract of a function that does nothing: `turns_are_shown`,
//! `stops_are_plain` (a turn that stops does so for want of memory, and so does the release of its packets, unless one made
//! its switch send too many messages), `faults_are_undone` (after a fault each switch has its entries again, or failed in the
//! undo, or was lost), `releases_leave` (what a commit that ended in a fault leaves), and `cut_turns_are_undone`.
#![tactic(auto)]

mod turns;

pub use turns::{
    cut_turns_are_undone, faults_are_undone, releases_leave, stops_are_plain, turns_are_shown,
};
