//! What a guard's rows and loops mean for packets.

ghost use Rattle.std.specs.Prelude.{◌≡◌, ◌^◌, ◌<◌, ◌≤◌, ℕ, Option, List, length, map, Contains};
ghost use Rattle.std.specs.List.{AllByRecursion};
ghost use Rattle.std.specs.Option.{option_map};
ghost use Rattle.of_match.specs.declared.packet_key.PacketKey.{PacketKey};
ghost use Rattle.flow_table.specs.declared.entry.Entry.{Entry};
ghost use Rattle.flow_table.specs.declared.view.ViewRow.{ViewRow};
ghost use Rattle.flow_table.specs.RowKeys.{shown_row, held_entry};
ghost use Rattle.flow_table.specs.Table.{IsTable};
ghost use Rattle.flow_table.specs.Hit.{best};
ghost use Rattle.flow_table.specs.View.{TableView};
ghost use Rattle.net_guard.specs.Links.{Guarded, Place};
ghost use Rattle.net_guard.specs.Values.{values_in};
ghost use Rattle.net_guard.specs.Loops.{IsOnLoop};
ghost use Rattle.net_guard.specs.Carrying.{row_taken, rows_of_all, NameNoOther, ComesBackTo};
ghost use Rattle.net_guard.specs.declared.scope.Scope.TheVariants.{Value};

/// Where no row has a field beside the port, the guarded one and, for an IPv4 destination, the frame's type, a place that
/// leads to itself is one that some packet comes back to. Fewer rows than there are Ethernet addresses leave one unnamed.
pub fn loops_are_walked()
    ensures { (g : Guarded) (tables : List TableView) (v : Option ℕ) (p : Place) → length (rows_of_all tables) < 2 ^ 48 → NameNoOther g.field tables
        → Contains (values_in g.field tables) v → IsOnLoop g (Value v) tables p → ComesBackTo g tables p }
{}

/// Where rows show the entries of a table, a packet takes the row of the entry that it hits: that which a switch forwards
/// it by.
pub fn rows_taken_are_hit()
    ensures { (k : PacketKey) (es : List Entry) (rows : List ViewRow) → IsTable es → AllByRecursion (λ e. e.key.priority ≤ 65535) es
        → map held_entry es ≡ map shown_row rows → option_map held_entry (best k es) ≡ option_map shown_row (row_taken k rows) }
{}
