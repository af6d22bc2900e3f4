//! The lines of a report, each as its bytes with the LF at its end.
//!
//! `start_line`, `gone_line`, `event_line`, `turn_line`, `instead_line`, `group_line`, `out_line`, `lost_line`, `switch_line`,
//! `flow_line`, `app_line` and `end_line` give exactly the bytes that `RunReport.antt` of `lego_model` spells, unless memory runs out.
#![tactic(auto)]

mod flow;
mod lines;
mod words;

pub use flow::flow_line;
pub use lego_model::TurnWord;
pub use lines::{
    app_line, end_line, event_line, gone_line, group_line, instead_line, lost_line, out_line,
    start_line, switch_line, turn_line,
};
