//! Statistics of OpenFlow 1.0: rows and sums as values and as bytes, and replies in parts.
//!
//! `read_flow_rows` answers Ok exactly on the grammar, else `Bad` with the offset of the first row at fault (`exact`,
//! `found`, `only`); `write_flow_rows`, sums, rows of tables and of ports are exact. `split_reply` makes full parts,
//! `join_replies` joins them or tells the first that does not belong (`joined`, `bad`). Laws: `laws_of_rows`,
//! `laws_of_layouts`, `laws_of_parts`.
#![tactic(auto)]

mod fault;
mod flow_row;
mod laws;
mod parts;
mod port_row;
mod reading;
mod row_list;
mod sum;
mod table_row;
mod writing;

pub use fault::StatsFault;
pub use flow_row::FlowRow;
pub use laws::{laws_of_layouts, laws_of_rows};
pub use parts::{join_replies, laws_of_parts, split_reply};
pub use port_row::{PortRow, read_port_row, write_port_row};
pub use reading::read_flow_rows;
pub use row_list::RowList;
pub use sum::{Sum, read_sum, write_sum};
pub use table_row::{TableRow, read_table_row, write_table_row};
pub use writing::{write_flow_row, write_flow_rows};
