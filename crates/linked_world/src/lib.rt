//! A world whose switches are those of another world, and whose applications are the caller's own.
//!
//! `Linked` passes the calls of links on, and notes what happened to applications: what is seen of it is woven of both
//! (`seen_of`), each of its calls does what a call of any world does, and over a world that keeps its word it keeps its
//! word (`Linked::keeps_word`).
#![tactic(auto)]

mod counts;
mod linked;
mod parts;

pub use linked::Linked;
