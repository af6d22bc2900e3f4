//! Laws of entries as their owners see them.

ghost use Rattle.std.specs.Prelude.{◌≡◌, ◌≢◌, ℕ, List};
ghost use Rattle.of_match.specs.declared.key.Key.{Key};
ghost use Rattle.of_match.specs.Key.{key_number};
ghost use Rattle.of_wire.specs.declared.bodies.FlowMod.{FlowMod as Change};
ghost use Rattle.flow_table.specs.declared.entry.Entry.{Entry};
ghost use Rattle.flow_table.specs.declared.view.ViewRow.{ViewRow};
ghost use Rattle.flow_table.specs.Change.{key_in, new_entry};
ghost use Rattle.undo_laws.specs.Corrected.{AgreeBut};
ghost use Rattle.undo_laws.specs.CorrectedSwitch.{GoesAlong, GoTogether};
ghost use Rattle.lego_model.specs.ViewRows.{row_in};
ghost use Rattle.flow_table.specs.Sorted.{with_row};
ghost use Rattle.net_txn.specs.laws.RowLaws.{sent};
ghost use Rattle.switch_laws.specs.Shown.{flags_in, correction_in};

/// A row that is added brings its owner's flags, and those of the other keys stay.
pub fn flags_are_kept()
    ensures added { (r : ViewRow) (rows : List ViewRow) (k : Key) → key_number r.key ≡ key_number k → flags_in (with_row r rows) k ≡ r.flags }
    ensures others { (r : ViewRow) (rows : List ViewRow) (k : Key) → key_number r.key ≢ key_number k → flags_in (with_row r rows) k ≡ flags_in rows k }
{}

/// By any rows that the host keeps: what happens to an entry happens to it as it is shown, and both go together. A row that is
/// added changes only how entries of its key are shown, and a new entry of its key is shown as it was asked for.
pub fn entries_are_shown()
    ensures along { (rows : List ViewRow) → GoesAlong (correction_in rows) }
    ensures together { (rows : List ViewRow) (es : List Entry) → GoTogether (correction_in rows) es }
    ensures flags { (rows : List ViewRow) (e : Entry) → (correction_in rows e).flags ≡ flags_in rows e.key }
    ensures others { (m : Change) (rows : List ViewRow) → AgreeBut (key_in m) (correction_in rows) (correction_in (with_row (row_in m) rows)) }
    ensures added { (now serial : ℕ) (m : Change) (rows : List ViewRow)
        → correction_in (with_row (row_in m) rows) (new_entry now serial (sent m)) ≡ new_entry now serial m }
{}
