//! The law of notices that are corrected.

ghost use Rattle.std.specs.Prelude.{◌≡◌, ℕ, List, map, filter};
ghost use Rattle.std.specs.List.{AllByRecursion};
ghost use Rattle.of_match.specs.declared.key.Key.{Key};
ghost use Rattle.flow_table.specs.declared.entry.Entry.{Entry};
ghost use Rattle.flow_table.specs.declared.lost.Lost.{Lost};
ghost use Rattle.flow_table.specs.declared.view.ViewRow.{ViewRow};
ghost use Rattle.flow_table.specs.Corrected.{shown_entry};
ghost use Rattle.flow_table.specs.Expiry.{expiry_notices};
ghost use Rattle.flow_table.specs.Step.{flow_removed};
ghost use Rattle.undo_laws.specs.CorrectedSwitch.{AskAll, HaveRest, owner_flags, is_asked_for};
ghost use Rattle.counter_cache.specs.Fixed.{fixed_removed};
ghost use Rattle.sent_laws.specs.Told.{FitsAtEnd};

/// Where a switch has SEND_FLOW_REM in each entry, and each has what is left of its hard timeout: the notices of time-outs that
/// owners asked for, corrected by what their entries have lost, are those of the table as it is shown, in its order.
pub fn notices_are_corrected()
    ensures { (rows : List ViewRow) (lost : List (Key × Lost)) (now : ℕ) (es : List Entry) → AskAll es → HaveRest lost es
        → AllByRecursion (FitsAtEnd lost now) es
        → map flow_removed (expiry_notices now (map (shown_entry rows lost) es))
        ≡ map (fixed_removed lost) (map flow_removed (filter (is_asked_for (owner_flags rows)) (expiry_notices now es))) }
{}
