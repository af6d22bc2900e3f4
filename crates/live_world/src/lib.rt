//! The world of real switches and real applications: connections of switches over TCP, and child programs, one socket each.
//!
//! `LiveWorld` meets each clause of the trait `World` as a world that tells nothing: each fault comes only with its own
//! count, `From` and `recv` give one whole message, `Joined` the FEATURES_REPLY of that switch. What a message is to it is
//! said by `hear_greeting` (`exact`, `features`) and `hear_joined`, when a connection is asked or closed by `Life::due`.
//! What switches and applications do is no part of any contract. Where it is asked to, it keeps what happened to it, so that
//! the run can be done again (`LiveWorld::keep_stimuli`).
#![tactic(auto)]

mod apps;
mod backlog;
mod clock;
mod connection;
mod conversations;
mod counts;
mod deadline;
mod echoes;
mod event_loop;
mod exchanges;
mod hearing;
mod inbound;
mod kept_stimuli;
mod late_notices;
mod life;
mod moments;
mod notes;
mod outbound;
mod own_messages;
mod places;
mod readiness;
mod returned;
mod start_times;
mod telling;
mod turn_time;
mod world;

pub use clock::{Clock, milliseconds_of};
pub use hearing::{Greeting, Hearing, hear_greeting, hear_joined};
pub use life::{Due, Life, Stage};
pub use world::LiveWorld;
