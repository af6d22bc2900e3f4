//! The law of the messages that revert a log.

ghost use Rattle.std.specs.Prelude.{◌≡◌, List, ℕ};
ghost use Rattle.of_wire.specs.declared.bodies.FlowMod.{FlowMod as Change};
ghost use Rattle.flow_table.specs.declared.entry.Entry.{Entry};
ghost use Rattle.flow_table.specs.Switch.{SwitchState};
ghost use Rattle.undo_laws.specs.Corrected.{corrected};
ghost use Rattle.undo_laws.specs.Log.{Inverse, undo};
ghost use Rattle.undo_laws.specs.Reverting.{CanRevert};
ghost use Rattle.undo_laws.specs.Serials.{IsSerialed};
ghost use Rattle.sent_laws.specs.Sent.{after_reverts, AllTaken, AllAllowed, AreReverts, ShowsBack};

/// The messages that revert a log, sent to a switch whose table as it is shown can be reverted, the newest inverse first: none is
/// refused, nothing but the table changes, and the table as it is shown in the end is the earlier one with the log undone. Nothing
/// stands against a message beside the table, and each entry that is put in is shown as the one that comes back.
pub fn messages_undo()
    ensures table { (shown after : Entry → Entry) (log : List Inverse) (ms : List Change) (s : SwitchState) → IsSerialed s.table
        → ShowsBack shown after log → AreReverts s.moment after log ms → AllAllowed s.had ms
        → CanRevert s.declared.cap s.moment log (corrected shown s.table)
        → corrected after (after_reverts ms s).table ≡ undo s.moment log (corrected shown s.table) }
    ensures rest { (shown after : Entry → Entry) (log : List Inverse) (ms : List Change) (s : SwitchState) → IsSerialed s.table
        → ShowsBack shown after log → AreReverts s.moment after log ms → AllAllowed s.had ms
        → CanRevert s.declared.cap s.moment log (corrected shown s.table)
        → after_reverts ms s ≡ record s { table = (after_reverts ms s).table } }
    ensures taken { (shown after : Entry → Entry) (log : List Inverse) (ms : List Change) (s : SwitchState) → IsSerialed s.table
        → ShowsBack shown after log → AreReverts s.moment after log ms → AllAllowed s.had ms
        → CanRevert s.declared.cap s.moment log (corrected shown s.table) → AllTaken ms s }
{}
