//! Sessions that are drawn by numbers: two switches, one application, and as many rounds as one likes, in which the
//! application changes flows and something happens to a switch.
//!
//! `draw_session` gives the session of a start and a count, the same each time. It keeps all limits, and is of one
//! application (`drawn_sessions_are_sound`). `summary_line` sums up the report of its run.
#![tactic(auto)]

mod draws;
mod laws;
mod rounds;
mod session;
mod summary;
mod turns;

pub use laws::drawn_sessions_are_sound;
pub use session::draw_session;
pub use summary::summary_line;
