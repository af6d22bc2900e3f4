//! Laws of runs: in a world that keeps its word, the run of an engine is the run of the reference controller; and in any world that tells, it
//! takes the course of a run (`run_course`), in which the messages that were kept come first (`takes_course` in `specs/laws/PartHoldingLaws.antt`).
//!
//! There is no call here but laws, each the contract of a function that does nothing. Part by part: `starts_move`,
//! `turns_move`, `groups_move`, `events_move`, `oldest_events_move`, `batches_move`, `ends_leave`. The whole:
//! `runs_are_the_references` (`out`, `full`), and of a run that a fault ends `cut_runs_are_the_references` (`cut`, `start`,
//! `loss`, `event`, `end`).
#![tactic(auto)]

mod events;
mod whole;

pub use events::{events_move, groups_move, starts_move, turns_move};
pub use whole::{
    batches_move, cut_runs_are_the_references, ends_leave, oldest_events_move,
    runs_are_the_references,
};
