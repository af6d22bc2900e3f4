//! What entries have lost that were removed and added again, and the statistics that show it.
//!
//! `Cache` finds a row by its key in logarithmic time (`get`); `put` takes the room that `reserve` makes (`reserved`, `room`).
//! `fix_rows`, `fix_sum` and `fix_removed` add what was lost (`exact`): the rows, the sum and the notice of a switch's table
//! become those of the table as it is shown to the owners (`shown`).
#![tactic(auto)]

mod cache;
mod fixing;
mod rows;
mod sums;

pub use cache::Cache;
