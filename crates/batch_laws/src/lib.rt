//! Laws of batches: what the engine makes of the items of one stimulus is what the reference controller has after it.
//!
//! There is no call here but laws, each the contract of a function that does nothing: `stimuli_are_handled`, and
//! `losses_are_handled` where the switch is lost, in a world
//! that keeps its word. The events, the switches with their owners' flags, the known ports and the moment are the same.
#![tactic(auto)]

mod laws;

pub use laws::{losses_are_handled, stimuli_are_handled};
