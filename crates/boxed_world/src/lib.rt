//! A world whose applications are objects of the same program, over the switches of any other world.
//!
//! `BoxedWorld` does call by call what any world does, keeps its word where the other world does (`BoxedWorld::keeps_word`),
//! and says what becomes of each application: a start takes its next spare (`life`), a frame goes to the object, which gives
//! nothing where it dies (`fed`), a take gives what waits, else Silent of one that lives and Closed of one that is dead
//! (`what`), and a death that was told beforehand ends it (`took`).
#![tactic(auto)]

mod life;
mod lives;
mod world;

pub use app_objects::{AppObject, Step};
pub use life::{Death, Life};
pub use world::BoxedWorld;
