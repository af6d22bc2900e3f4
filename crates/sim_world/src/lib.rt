//! A simulated world: declared switches, a scripted application, stimuli, and calls that fail as told.
//!
//! `SimWorld` is a `World` that tells, and hands out by `outside::Told` which stimuli were begun and which switches are
//! declared. `SimWorld::keeps_word` hands out what its type keeps: what its switches send is
//! told in order (`word`), its applications keep to their lines (`scripts`), calls fail exactly where they are told to or
//! are stray (`told`), and of expected calls no more are counted as stray than wanted memory (`strays`). The builders give one thing more or
//! nothing (`ok`, `err`). Laws: `longer_scripted_history`, `lives_of_a_history`, `links_move_no_life`.
#![tactic(auto)]

mod again;
mod app_calls;
mod builders;
mod fail_numbers;
mod giving;
mod history;
mod life;
mod link;
mod link_calls;
mod links;
mod lives;
mod next_call;
mod parts;
mod script_laws;
mod scripts;
mod tally;
mod told;
mod waits;
mod world;

pub use script_laws::{links_move_no_life, lives_of_a_history, longer_scripted_history};
pub use world::SimWorld;
