//! Changes to the flow tables of switches, each behind a barrier before it is answered, and undone if the turn fails.
//!
//! `Net` is what the host keeps of its switches: `joined` (`joins`, `in_step`), `left`, `lost`, `arrived`, `settle`,
//! `waiting`, `rows` (`asks`, `in_step`). `Txn` is one transaction over it: `begin`, `change` (changes and statistics), whose clause
//! `changes` is the record `Changes`, `hold_packet`, `commit`, whose one clause is the record `Commits`, and `abort`, whose one clause is the
//! record `Undoes`. A switch whose link fails is lost: it leaves, and the calls go on with the others. Each fault has its
//! cause; in a world that keeps its word, view and table move together. Law: `views_stay_in_order`. docs/GUARANTEES.md
//! has a row for each promise.
#![tactic(auto)]

mod abort;
mod arriving;
mod change;
mod exchange;
mod greeting;
mod halt;
mod heard;
mod host;
mod joining;
mod laws;
mod leaving;
mod logged;
mod message_event;
mod message_store;
mod net;
mod notices;
mod port_table;
mod ports;
mod prepared;
mod queue;
mod release;
mod replies;
mod response;
mod reverting;
mod room;
mod row_request;
mod rows;
mod settling;
mod statistics;
mod trouble;
mod txn;
mod undo;
mod undo_order;
mod undo_progress;
mod undo_wait;
mod view_table;
mod views;
mod wait;

pub use laws::views_stay_in_order;
pub use lego_model::TxnFault;
pub use logged::{Logged, UndoProgress};
pub use net::Net;
pub use ports::KnownPorts;
pub use queue::EventQueue;
pub use txn::Txn;
