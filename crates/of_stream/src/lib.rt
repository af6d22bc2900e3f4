//! The bytes of a connection, which come in pieces of any size, cut into OpenFlow messages.
//!
//! `Cutter::next` hands out the front of what is held if that is a whole frame (`frame`, `none`, `bad_length`, `kept`,
//! `err`), by the length in the header alone; `Cutter::feed` appends (`ok`, `err`, `stays`). `cut_pieces` gives the same
//! frames however the stream was cut (`split`, `only`). Law: `laws_of_streams`.
#![tactic(auto)]

mod cutter;
mod fault;
mod streams;

pub use cutter::Cutter;
pub use fault::CutFault;
pub use streams::{Cut, cut_pieces, laws_of_streams};
