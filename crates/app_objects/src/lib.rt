//! Applications as objects of the same program.
//!
//! `AppObject` is an application that is given frames of the host and gives bytes: its contract says what it gives, and
//! what it would give after it was restored to a checkpoint.
#![tactic(auto)]

mod object;

pub use object::{AppObject, Step};
