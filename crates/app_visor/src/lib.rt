//! Turns and starts of applications: each frame is played in order, and the end is what the bytes and the answers say.
//!
//! `turn`: `ok` by `StagesTurn`, `err` by `Stops`, `err_store`; however it ends `talks`, `later`, `stays`, `index`, `alive`,
//! `continues`. `restart`, at most three attempts, each with the kept checkpoint: `ok` by `Restarts`; however it ends
//! `own`, `talks`, `err`, `continues`. Laws:
//! `turns_of_the_reference`, `acts_of_a_turn`, `turns_are_told`, `attempts_are_told`, `turns_are_dialogues`,
//! `attempts_are_dialogues`. docs/APPLICATIONS.md says what an application says and is told.
#![tactic(auto)]

mod asking;
mod came;
mod intake;
mod laws;
mod play_end;
mod starting;
mod state;
mod talk;
mod turning;

pub use intake::TakeBuffer;
pub use laws::{
    acts_of_a_turn, attempts_are_dialogues, attempts_are_told, turns_are_dialogues, turns_are_told,
    turns_of_the_reference,
};
pub use starting::{ATTEMPTS, restart};
pub use state::{AppState, Back, TurnEnd};
pub use turning::turn;
