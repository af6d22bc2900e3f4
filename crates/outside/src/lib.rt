//! The outside of the controller: the one object that stands for switches and applications, and the history that it
//! tells.
//!
//! Each call of the trait `World` ensures one record of `specs/Calls.antt`: what is appended to the history, which count
//! rose, and that each fault comes only with its own count. `Conforming` says when a world keeps its word, `InOrder` when
//! it does but that bytes may be no messages. `Counting` and `Mute` are worlds that meet the trait. `Told` is for worlds that
//! hand out what it takes to do a run again. `Judge` comes along.
#![tactic(auto)]

mod call;
mod counting;
mod faults;
mod item;
mod laws;
mod lent;
mod mute;
mod step;
mod told;
mod world;

pub use call::{CallKind, FailCall};
pub use counting::Counting;
pub use faults::{GiveFault, LinkFault, NextFault, OpenFault, Short, StartFault};
pub use flow_table::{AllowAll, Judge};
pub use item::{Item, Taken};
pub use laws::{
    conforming_before, failed_call_loses, failed_moves_none, later_calls, longer_history,
    loss_is_told, lost_goes_out, marks_steer_nothing, receives_the_next, rests_until_a_stimulus,
    sent_moves_one, stimuli_begin_in_order, taken_moves_none,
};
pub use mute::Mute;
pub use step::WorldStep;
pub use told::{Decl, Told};
pub use world::World;
