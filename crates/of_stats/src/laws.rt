//! Laws of rows and sums, each the contract of a function that does nothing.

ghost use Rattle.std.specs.Prelude.{◌≡◌, ℕ, List, [], Ok};
ghost use Rattle.of_types.specs.Layout.{spelled, AreFields, IsLaidOut};
ghost use Rattle.of_stats.specs.declared.flow_row.FlowRow.{FlowRow};
ghost use Rattle.of_stats.specs.declared.sum.Sum.{Sum};
ghost use Rattle.of_stats.specs.declared.table_row.TableRow.{TableRow};
ghost use Rattle.of_stats.specs.declared.port_row.PortRow.{PortRow};
ghost use Rattle.of_stats.specs.Layouts.{sum_fields, table_fields, port_fields};
ghost use Rattle.of_stats.specs.Flows.{rows_bytes, AreRows, SpellRows};
ghost use Rattle.of_stats.specs.Reading.{rows_of};

/// Rows of flows that were written are spelled so and are read again, and bytes spell one list of rows at most.
pub fn laws_of_rows()
    ensures written { (rows : List FlowRow) → AreRows rows → SpellRows rows (rows_bytes rows) }
    ensures again { (rows : List FlowRow) → AreRows rows → rows_of (rows_bytes rows) ≡ Ok rows }
    ensures one_reading { (rows others : List FlowRow) (bytes : List ℕ) → AreRows rows → AreRows others
        → SpellRows rows bytes → SpellRows others bytes → rows ≡ others }
{}

/// A sum, or a row that has one length, that was written is read again.
pub fn laws_of_layouts()
    ensures sums { (sum read : Sum) → AreFields (sum_fields sum)
        → IsLaidOut 0 (sum_fields read) [] (spelled (sum_fields sum)) → read ≡ sum }
    ensures tables { (row read : TableRow) → AreFields (table_fields row)
        → IsLaidOut 0 (table_fields read) [] (spelled (table_fields row)) → read ≡ row }
    ensures ports { (row read : PortRow) → AreFields (port_fields row)
        → IsLaidOut 0 (port_fields read) [] (spelled (port_fields row)) → read ≡ row }
{}
