//! The engine: it takes what a world tells, makes events of it, gives them to the applications, and writes the report.
//!
//! `serve` runs a world to its end, in at most so many rounds. In a world that tells and keeps its word the run is the reference
//! controller's over the first stimuli, one for each round (`reference_run`), also up to the point where a fault ended it
//! (`reference_run_until_fault`). Each end has its cause (`end_has_cause`); no switch ends such a run, but by a flood
//! (`no_switch_at_fault`); no call of a link is stray (`no_stray_call`); no transaction id is used twice (`own_ids_ascend`);
//! what came was messages (`all_bytes_are_messages`); each application that was started is ended
//! (`every_application_ended`); the world is only called as its calls allow (`continues`, `never_fell`). In any world the
//! messages that were kept come first in the next batch (`kept_messages_come_first`).
#![tactic(auto)]

mod batch;
mod closing;
mod dispatch;
mod engine_core;
mod fault;
mod instead;
mod last;
mod limits;
mod losing;
mod run;
mod served;
mod whole;

pub use limits::{MOST_BODY, MOST_EVENTS, MOST_ITEMS};
pub use served::Served;
pub use whole::serve;
