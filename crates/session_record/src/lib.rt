//! A run, written down as the session that does it again.
//!
//! `Recorder` is a world that passes each call on to another one, and keeps what became of the calls for applications and of those
//! on links. `Recorder::text` spells that as a session: the switches and stimuli of the inner world, how each start ended, what was
//! given in each turn, and the calls at which switches were lost; `Recorder::remarks` counts what no line says. Its clauses: `spelled` here, and `noted` on each
//! call. Laws: `lines_are_read`, `texts_are_read`.
#![tactic(auto)]

mod app_lines;
mod deed;
mod laws;
mod life;
mod line_words;
mod links;
mod log;
mod pieces;
mod recorder;
mod remarks;
mod stimulus_lines;
mod whole_text;

pub use deed::DeedKind;
pub use laws::{lines_are_read, texts_are_read};
pub use recorder::Recorder;
