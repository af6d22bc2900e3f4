//! Statistics of a switch as functions of its state.

ghost use Rattle.std.specs.Prelude.{◌≡◌, ◌≤◌, ◌<◌, ◌∷◌, [], None, length, All, if◌then◌else◌, IfOk};
ghost use Rattle.of_action.specs.Spelling.{list_size};
ghost use Rattle.of_stats.specs.Parts.{room};
ghost use Rattle.flow_table.specs.Refusals.{stats_refusal};
ghost use Rattle.flow_table.specs.Statistics.{sees_table, flow_rows, sum_bytes, table_bytes, port_rows, reply_rows, statistics_replies};
ghost use Rattle.switch_sim.specs.Readable.{AreReadable};

use crate::message_list::MessageList;
use crate::statistics::{
    description, flow_rows, port_rows, reply, sum, sum_bytes, table_bytes, table_name,
};
use crate::switch::SimSwitch;
use flow_table::Entry;
use of_match::Match;
use of_stats::TableRow;
use of_types::{ByteList, Xid, get_array, get_u8, get_u16, stats};
use of_wire::Stats;
use std::alloc::{AllocError, Global};

/// Returns a list of one row.
fn one_row(alloc: Global, row: ByteList) -> Result<Vec<ByteList>, AllocError>
    requires { length row ≤ room }
    ensures rows { IfOk result (λ rows. rows.items ≡ row ∷ []) }
    ensures len { IfOk result (λ rows. All (λ r. length r ≤ room) rows.items) }
{
    let mut rows = Vec::new(alloc);
    rows.push(row)?;
    Ok(rows)
}

impl SimSwitch {
    /// Returns the entries of a table: the one table has the number 0, and 0xff means all tables.
    fn seen(&self, table_id: u8) -> &[Entry]
        ensures entries { result.now ≡ (if sees_table table_id then self.now.table.entries else []) }
        ensures installed { All (λ e. e.installed ≤ self.now.moment) result.now }
        ensures actions { All (λ e. list_size e.actions ≤ 65432) result.now }
        ensures few { length result.now < 4294967296 }
        ensures moment { self.now.moment ≤ 4294967295 }
    {
        if table_id == 0 || table_id == 0xff {
            self.table.entries()
        } else {
            &[]
        }
    }

    /// Returns rows of flows, for a request's body.
    #[tactic(auto, unfolding(flow_table::specs::Statistics::flow_rows, flow_table::specs::Statistics::selected_by))]
    fn flow_stats(&self, query: &[u8]) -> Result<Vec<ByteList>, AllocError>
        requires { length query.now ≡ 44 }
        ensures rows { IfOk result (λ rows. rows.items ≡ flow_rows query.now self.now) }
        ensures len { IfOk result (λ rows. All (λ r. length r ≤ room) rows.items) }
    {
        let matching = Match::decode(&get_array::<40>(query, 0));
        let entries = self.seen(get_u8(query, 40));
        flow_rows(
            self.alloc,
            entries,
            self.moment,
            &matching,
            get_u16(query, 42),
        )
    }

    /// Returns the sum over flows, for a request's body.
    #[tactic(auto, unfolding(flow_table::specs::Statistics::sum_bytes, flow_table::specs::Statistics::selected_by))]
    fn aggregate_stats(&self, query: &[u8]) -> Result<ByteList, AllocError>
        requires { length query.now ≡ 44 }
        ensures bytes { IfOk result (λ bytes. bytes ≡ sum_bytes query.now self.now) }
        ensures len { IfOk result (λ bytes. length bytes ≡ 24) }
    {
        let matching = Match::decode(&get_array::<40>(query, 0));
        let entries = self.seen(get_u8(query, 40));
        sum_bytes(self.alloc, &sum(entries, &matching, get_u16(query, 42)))
    }

    /// Returns the row of the one table.
    #[tactic(auto, unfolding(flow_table::specs::Statistics::table_bytes))]
    fn table_stats(&self) -> Result<ByteList, AllocError>
        ensures bytes { IfOk result (λ bytes. bytes ≡ table_bytes self.now) }
        ensures len { IfOk result (λ bytes. length bytes ≡ 64) }
    {
        let row = TableRow {
            table_id: 0,
            name: table_name(),
            wildcards: 0x3f_ffff,
            max_entries: self.cap,
            active_count: self.table.len() as u32,
            lookup_count: self.lookups,
            matched_count: self.matched,
        };
        table_bytes(self.alloc, &row)
    }

    /// Returns rows of ports, for a request's body.
    #[tactic(auto, unfolding(flow_table::specs::Statistics::port_rows))]
    fn port_stats(&self, query: &[u8]) -> Result<Vec<ByteList>, AllocError>
        requires { length query.now ≡ 8 }
        ensures rows { IfOk result (λ rows. rows.items ≡ port_rows query.now self.now) }
        ensures len { IfOk result (λ rows. All (λ r. length r ≤ room) rows.items) }
    {
        port_rows(self.alloc, &self.ports, get_u16(query, 0))
    }

    /// Returns the rows of a reply.
    #[tactic(auto, using(crate::specs::laws::StepLaws::query_fits), unfolding(flow_table::specs::Statistics::reply_rows))]
    fn rows(&self, request: &Stats) -> Result<Vec<ByteList>, AllocError>
        requires { stats_refusal request.now ≡ None }
        ensures rows { IfOk result (λ rows. rows.items ≡ reply_rows request.now self.now) }
        ensures len { IfOk result (λ rows. All (λ r. length r ≤ room) rows.items) }
    {
        let query = request.body.as_slice();
        if request.kind == stats::DESC {
            one_row(self.alloc, description(self.alloc)?)
        } else if request.kind == stats::FLOW {
            self.flow_stats(query)
        } else if request.kind == stats::AGGREGATE {
            one_row(self.alloc, self.aggregate_stats(query)?)
        } else if request.kind == stats::TABLE {
            one_row(self.alloc, self.table_stats()?)
        } else {
            self.port_stats(query)
        }
    }

    /// STATS_REQUEST (OpenFlow 1.0.0, 5.3.5 Read State Messages): the reply, in as few parts as its rows fill.
    #[tactic(auto, unfolding(flow_table::specs::Statistics::statistics_replies))]
    pub(crate) fn statistics(&self, xid: Xid, request: &Stats) -> Result<MessageList, AllocError>
        requires { stats_refusal request.now ≡ None }
        ensures sent { IfOk result (λ list. list ≡ statistics_replies xid request.now self.now) }
        ensures readable { IfOk result AreReadable }
    {
        let rows = self.rows(request)?;
        reply(self.alloc, xid, request.kind, &rows)
    }
}
