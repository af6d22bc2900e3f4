//! What undoes changes of flow tables: an image of each key before it was touched, and a log of them.
//!
//! `plan` says what a FLOW_MOD would change of its owner's view, or the first key whose entry goes without a row, or the
//! first row without an entry (`Plans`). `Log` keeps the first image of each key since a mark; it is a list, of which
//! `since`, `pop`, `cut` and `mend` say the parts. Laws: `plans_undo`, `planned_changes_keep_marks`, `first_images_undo`,
//! `first_images_stay`, `marks_stand`, `mended_images_say`, `mends_reach_marks`, `inner_undo_leaves_marks`, `messages_put_back`,
//! `messages_in_order`, `full_tables_want_removals_first`, `next_ones_are_wanted`, `images_stay_made`, `key_order_restores`, `keys_are_set_right`. See
//! docs/GUARANTEES.md.
#![tactic(auto)]

mod copying;
mod fault;
mod image;
mod index;
mod laws;
mod log;
mod mending;
mod messages;
mod planning;
mod rows;
mod sending;
mod sending_laws;

pub use fault::PlanFault;
pub use image::{Image, Inverse, Logged, PutBack};
pub use laws::{
    first_images_stay, first_images_undo, full_tables_want_removals_first, inner_undo_leaves_marks,
    marks_stand, mended_images_say, mends_reach_marks, messages_in_order, messages_put_back,
    planned_changes_keep_marks, plans_undo, shown_is_a_correction,
};
pub use log::{Log, Mark};
pub use planning::plan;
pub use sending::{InverseKind, Wanted};
pub use sending_laws::{
    images_stay_made, key_order_restores, keys_are_set_right, next_ones_are_wanted,
};
