//! Laws of exact undo on one flow table, for all five commands, and of switches as their engine shows them to the owners of their entries.
//!
//! There is no call here but laws, each the contract of a function that does nothing. `removals_restore`, `undo_restores`
//! and `undo_agrees`: a log that is undone gives the earlier table. `logs_stand`: changes, refusals and inner undos keep
//! every mark. `no_inverse_is_refused`. `one_message_restores`: so does one message a key. `switches_are_shown`: what
//! happens to a switch happens to what is shown of it. `owners_see`: flags that the engine adds change nothing that owners see.
#![tactic(auto)]

mod adding;
mod corrected;
mod reverting;
mod same;
mod serials;
mod shown;
mod table;
mod undoing;

pub use adding::{additions_are_kept, removal_is_exact, removals_restore};
pub use corrected::{changes_are_shown, inverses_are_shown, same_is_asked};
pub use reverting::{logs_can_be_reverted, messages_revert, no_inverse_is_refused};
pub use same::{same_changes, same_events, undo_agrees};
pub use serials::{serials_differ, used_is_by_serial};
pub use shown::{owners_see, switches_are_shown};
pub use table::{one_message_restores, order_has_room};
pub use undoing::{change_in_flight, logs_stand, longer_logs, undo_is_by_key, undo_restores};
