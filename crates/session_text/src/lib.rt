//! The text of a session, read as the session that it spells and given to a simulated world.
//!
//! `read_session` gives a new world the session of the text, or tells the text's first fault with its line (`exact`,
//! `new`). `generate` gives it the session that a start and a count draw. `parse_session` reads it as a value (`exact`), which keeps all limits (`sound`) and names only known
//! applications (`named`). docs/SESSION.md describes the text.
#![tactic(auto)]

mod loading;
mod text_fault;
mod text_lines;
mod text_so_far;
mod text_steps;
mod text_words;
mod whole_text;
mod words;

pub use loading::{generate, read_session};
pub use text_fault::SessionError;
pub use whole_text::parse_session;
