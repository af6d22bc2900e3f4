//! Laws of longer journals: what a turn, an attempt to start and an end add to what a journal tells of an application.
//!
//! There is no call here but laws, each the contract of a function that does nothing: `turns_are_read`,
//! `attempts_are_read`, `ends_are_read`, `events_are_frames`, and `fine_changes_have_reached` of the journal as a
//! dialogue.
#![tactic(auto)]

mod readings;

pub use readings::{
    attempts_are_read, ends_are_read, events_are_frames, fine_changes_have_reached, turns_are_read,
};
