//! What a session lists, packed: stimuli, and the scripts of turns, each in a few bytes behind the one before it.
#![tactic(auto)]

mod heads;
mod kinds;
mod records;
mod reply_list;
mod step_list;
mod stimulus_list;

pub use reply_list::ReplyList;
pub use step_list::{StepList, StepRef, Steps};
pub use stimulus_list::StimulusList;
