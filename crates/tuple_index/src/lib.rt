//! A flow table that is searched by groups of equal wildcards.
#![tactic(auto)]

mod changing;
mod copying;
mod counting;
mod describing;
mod expiring;
mod filing;
mod grouping;
mod hitting;
mod reaching;
mod selecting;
mod table;

pub use table::TupleTable;
