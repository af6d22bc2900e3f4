//! The checkpoints of applications and the turns that they completed since. What a turn hands over is staged first; it
//! is kept when the turn stands, and dropped when the turn is undone.
#![tactic(auto)]

mod frame_list;
mod laws;
mod slot;
mod store;
mod turned;

pub use frame_list::FrameList;
pub use laws::{laws_of_places, laws_of_staging};
pub use store::Store;
pub use turned::Turned;
