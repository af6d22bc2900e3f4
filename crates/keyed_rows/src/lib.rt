//! Rows that stand in the order of their keys, found by halves.
//!
//! `position` says where the row of a key stands, or where it would stand; `find` lends it. `Lookup` finds the first row of a
//! key in any rows, by halves where they are in order. Definitions: `Sorted` of `flow_table`.
#![tactic(auto)]

mod keyed;
mod lookup;
mod search;

pub use keyed::Keyed;
pub use lookup::Lookup;
pub use search::{compare_keys, find, position};
