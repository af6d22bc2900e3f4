//! A world in which an application has three copies, and gives what two of them gave.
//!
//! `VoteWorld` does call by call what any world does, and keeps its word where the other world does (`VoteWorld::keeps_word`).
//! Where the other world tells its history, `take` says what is voted: the next whole frame that two copies gave in their
//! lives, each since its start. A copy that gives another frame than the other two, or none, is out until the next start.
#![tactic(auto)]

mod copies;
mod copy;
mod polling;
mod voters;
mod world;

pub use copies::Copies;
pub use world::VoteWorld;
