//! A world that tells: it passes each call on to another one, and keeps as its history what the calls and their answers say.
//!
//! Of a world of real switches no contract knows what will come. What was said is known all the same: which messages were sent and got,
//! which bytes an application was given and gave, which switches joined, left and were lost. `Telling` keeps that, for contracts alone, so
//! that whatever is promised of a world that tells is promised over real switches too. It shows nothing of what the world is
//! (`Given.shows`).
#![tactic(auto)]

mod joined;
mod note;
mod story;
mod telling;

pub use telling::Telling;
