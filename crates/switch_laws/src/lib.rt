//! Laws of the switches of a world as the owners of their entries see them: they move as those of the reference
//! controller.
//!
//! There is no call here but laws, each the contract of a function that does nothing. In a world that keeps its word:
//! `changes_are_shown` and `exchanges_are_shown` (answers and tables), `undos_are_shown`, `transactions_stand`,
//! `packets_are_shown`, `stopped_releases_are_plain`, `histories_stand`, `flags_are_kept`, `entries_are_shown`. In any world
//! that tells: `steps_are_in_order`, `none_is_released`, `faults_are_undone`.
#![tactic(auto)]

mod corrections;
mod exchange;
mod order;
mod release;
mod transaction;

pub use corrections::{entries_are_shown, flags_are_kept};
pub use exchange::{changes_are_shown, exchanges_are_shown};
pub use order::{none_is_released, steps_are_in_order};
pub use release::{packets_are_shown, stopped_releases_are_plain};
pub use transaction::{faults_are_undone, histories_stand, transactions_stand, undos_are_shown};
