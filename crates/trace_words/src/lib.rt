//! Messages of OpenFlow 1.0 and frames of applications in plain words, a line each, with the standard's names.
//!
//! `MessageWords`, `AppWords`, `HostWords` and `RefusalWords` are printed by `{}`. They take memory while they are printed, and no clause
//! speaks of their text: docs/TRACE.md shows it.
#![tactic(auto)]

mod actions;
mod errors;
mod frames;
mod messages;
mod names;
mod refusals;
mod values;

pub use frames::{AppWords, HostWords};
pub use messages::MessageWords;
pub use refusals::RefusalWords;
