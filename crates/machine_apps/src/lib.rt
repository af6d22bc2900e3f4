//! Applications that resume exactly at their checkpoints.
//!
//! `Learn` is a learning switch, `Clean` deletes the flows to a port that went down, and `Block` makes switches drop some
//! packets. The frames that each gives for an event, and what `Learn` has learned then, are functions of the event and of what
//! it had learned (`turn`). Each is an `AppObject` that gives all frames of a turn at its event, and a machine
//! (`machines_resume`): behind a turn it stands as behind a Restore with the checkpoint that the turn handed over.
#![tactic(auto)]

mod blocking;
mod checkpoint;
mod cleaning;
mod laws;
mod learn;
mod messages;
mod saying;

pub use blocking::Block;
pub use checkpoint::Station;
pub use cleaning::Clean;
pub use laws::{checkpoints_are_read_again, machines_resume};
pub use learn::Learn;
pub use messages::flow_frame;
