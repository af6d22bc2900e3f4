//! A simulated switch of OpenFlow 1.0.0.
//!
//! `SimSwitch::message` and `SimSwitch::stimulus` send and leave exactly what the definitions of `flow_table` say
//! (`sent`, `ok`, `serials`); want of memory leaves the switch as it was (`err`); what it sends can be read and is not
//! too long or too much (`readable`, `short`, `few`). `due` and `pass` are what a moment sends, and the moment itself,
//! which takes no memory. `features` is its FEATURES_REPLY (`bytes`, `read`, `own`). See docs/SWITCH.md.
#![tactic(auto)]

mod laws;
mod looking;
mod message;
mod message_list;
mod moments;
mod notices;
mod output;
mod packet_out;
mod port;
mod refusal;
mod reply;
mod state_stats;
mod statistics;
mod stimulus;
mod switch;
mod table;

pub use laws::{declarations_stay, features_are_answered, moments_stay};
pub use message_list::MessageList;
pub use switch::SimSwitch;
