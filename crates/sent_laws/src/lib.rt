//! Laws of the messages that revert a log, sent to a switch one after the other, and of the notices that it sends by itself.
//!
//! There is no call here but laws, each the contract of a function that does nothing. `messages_undo`: a switch refuses none of them,
//! and its table, as its engine shows it, is then the log undone. `notices_are_corrected`: what owners are told of time-outs is that
//! of the table as it is shown. `courses_stay_abreast`, `serials_count_within_a_turn`: a switch's table and a definition's stay the same
//! but for serials, which count within a turn alone.
#![tactic(auto)]

mod abreast;
mod sent;
mod told;

pub use abreast::{courses_stay_abreast, serials_count_within_a_turn};
pub use sent::messages_undo;
pub use told::notices_are_corrected;
