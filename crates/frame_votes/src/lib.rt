//! Three copies of an application, of which two that agree are followed: a vote, frame by frame.
//!
//! A `Ballot` holds what each copy has given in a life and was not voted yet. `Ballot::vote` takes the frame that two copies gave
//! whole at the same place; a copy with another outcome is out until its next life. Where no two agree, all are out.
//! `two_gave_it` says it of a whole life.
#![tactic(auto)]

mod ballot;
mod given;
mod laws;

pub use ballot::{Ballot, Place};
pub use laws::{two_are_followed, two_gave_it};
