//! Flow tables of OpenFlow 1.0.0: the entries of a switch, in key order, each key once; and the definitions of a whole
//! switch.
//!
//! `Table::change` is answered by its notices, or by the first of BAD_COMMAND, OVERLAP and ALL_TABLES_FULL that stands
//! against it (`answer`); the table after it is the definition's (`ok`, `err`, `rise`); a delete without notices takes no
//! memory (`without_notices`). `hit` (`found`, `entries`, `next`), `lookup`, `expire` (`notices`, `ok`, `err`), `select` and
//! `add_counts` equal their definitions over the whole list; over any list of calls: `run` (`answers`, `ok`, `err`).
#![tactic(auto)]

mod calls;
mod changing;
mod copying;
mod describing;
mod entry;
mod expiring;
mod fault;
mod hitting;
mod judge;
mod lost;
mod notice;
pub mod plain;
mod selecting;
mod table;
mod view;

pub use calls::{TableAnswer, TableCall, is_plan, run};
pub use entry::Entry;
pub use fault::ChangeFault;
pub use judge::{AllowAll, Judge};
pub use lost::{Lost, LostRows};
pub use notice::{Notice, NoticeList};
pub use table::Table;
pub use view::{TableView, ViewList, ViewRow};
