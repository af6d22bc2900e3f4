//! Laws of scripts: what a journal tells of an application that keeps to its lines is the front of what these say.
//!
//! There is no call here but one law, the contract of a function that does nothing: `journals_tell_fronts`.
#![tactic(auto)]

mod scripts;

pub use scripts::journals_tell_fronts;
