//! Actions of OpenFlow 1.0 as values and as bytes.
//!
//! `decode_list` answers Ok exactly on the grammar, else the first fault by the standard's order, with its offset
//! (`exact`, `found`, `only`); `check_list` answers the same without memory. `encode_list` writes the one spelling,
//! `size` is its length, `outputs_to` says whether one of them outputs to a port, `copy_actions` copies them. Law:
//! `laws_of_lists`.
#![tactic(auto)]

mod action;
mod fault;
mod list;
mod opaque;
mod reading;
mod writing;

pub use action::Action;
pub use fault::{ActionFault, ActionKind};
pub use list::{ActionList, copy_actions, outputs_to};
pub use opaque::Opaque;
pub use reading::{check_list, decode_list, laws_of_lists};
pub use writing::{encode_list, size};
