//! Parts that a child program plays for trials: applications, which speak frames over their standard streams, and a
//! switch, which connects to a controller.
//!
//! `perform` plays the part that words name. What the applications `learn` and `clean` do is told by `machine_apps`. All
//! else is proved safe, and to end where its streams do.
#![tactic(auto)]

mod part;
mod playing;
mod switch;
mod words;

pub use part::{Part, Step};
pub use playing::play;
pub use switch::Arrival;
pub use words::{perform, play_part, play_switch};
