//! What programs share that try out the live world by themselves: a clock, a child that plays a part, a free port, and a
//! live world that ends after a given number of packets.
//!
//! A program is its own child: `Player::start` starts the program that runs, with words that name a part. `Bounded` passes
//! the calls of the live world on, and promises of them what the live world does. All else is proved safe, and to end.
#![tactic(auto)]

mod bounded;
mod player;
mod ports;
mod steady_clock;

pub use bounded::{Bounded, Bounds};
pub use player::{OWN_PROGRAM, Player, own_words};
pub use ports::free_port;
pub use steady_clock::SteadyClock;
