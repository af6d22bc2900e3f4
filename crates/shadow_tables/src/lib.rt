//! Shadows of the joined switches: the table of each one as applications see it, and its known ports.
//!
//! Each call changes what is known of one switch, by the definitions of what is known (`known`), and lets the others be.
//! Switches and rows are found by halves. `views` and `view` lend the tables, whose rows are in key order. `put`, `remove`,
//! `set_config` and `leave` take no memory: `reserve` makes the room that `put` needs (`reserved`), and no call makes less
//! of it (`room`).
#![tactic(auto)]

mod ports;
mod rows;
mod shadows;
mod tables;

pub use shadows::Shadows;
