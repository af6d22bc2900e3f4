//! Laws of the messages of applications, each the contract of a function that does nothing.

ghost use Rattle.std.specs.Prelude.{◌≡◌, ℕ, List, None, Ok, Some};
ghost use Rattle.of_types.specs.declared.errors.OfError.{OfError};
ghost use Rattle.of_wire.specs.declared.bodies.FlowMod.{FlowMod as Change};
ghost use Rattle.of_wire.specs.declared.message.Message.TheVariants.{FlowMod};
ghost use Rattle.flow_table.specs.declared.entry.Entry.{Entry};
ghost use Rattle.flow_table.specs.declared.view.ViewRow.{ViewRow};
ghost use Rattle.flow_table.specs.Table.{IsTable};
ghost use Rattle.flow_table.specs.Switch.{SwitchState};
ghost use Rattle.flow_table.specs.Refusals.{message_refusal};
ghost use Rattle.flow_table.specs.Step.{after_message};
ghost use Rattle.undo_laws.specs.Corrected.{IsCorrection};
ghost use Rattle.undo_laws.specs.CorrectedSwitch.{corrected_switch};
ghost use Rattle.app_frames.specs.declared.frame.Answer.{Answer};
ghost use Rattle.lego_model.specs.Answers.{Rows, rows_of_table, as_sent, switch_answer};
ghost use Rattle.outside.specs.Seen.{Seen};
ghost use Rattle.outside.specs.Conforming.{Conforming};
ghost use Rattle.net_txn.specs.Net.{NetState};
ghost use Rattle.net_txn.specs.Changes.{Changes};
ghost use Rattle.switch_laws.specs.Lost.{ExchangeShown};
ghost use Rattle.switch_laws.specs.Shown.{correction_in, correction_after, Passes};
ghost use Rattle.switch_laws.specs.Since.{Ready};

use outside::World;

/// A change that the host let pass: as it is shown, a switch answers what the application asked for as it answers what it is
/// sent, and has the same table then, with the new entry as it was asked for.
pub fn changes_are_shown()
    ensures answer { (shown : Entry → Entry) → IsCorrection shown → (m : Change) (s : SwitchState) (rows : Rows) → Passes m rows
        → switch_answer (corrected_switch shown s) (FlowMod m) ≡ switch_answer s (as_sent (FlowMod m)) }
    ensures taken { (m : Change) (rows : List ViewRow) (s : SwitchState) → IsTable s.table.entries
        → Passes m (rows_of_table s.table.entries) → message_refusal s (as_sent (FlowMod m)) ≡ None
        → after_message (FlowMod m) (corrected_switch (correction_in rows) s) ≡ corrected_switch (correction_after m rows) (after_message (as_sent (FlowMod m)) s) }
    ensures refused { (m : Change) (rows : List ViewRow) (s : SwitchState) (e : OfError) → Passes m (rows_of_table s.table.entries)
        → message_refusal s (as_sent (FlowMod m)) ≡ Some e
        → after_message (FlowMod m) (corrected_switch (correction_in rows) s) ≡ corrected_switch (correction_in rows) (after_message (as_sent (FlowMod m)) s) }
{}

/// In a world that keeps its word, where all was ready: what an application's message was answered is what the reference
/// controller answers, which loses the switch there or not; and its switches stand then as the world's do, as they are
/// shown.
pub fn exchanges_are_shown<W: World>()
    ensures { (d : ℕ) (bytes : List ℕ) (old new : Seen W.Own) (net now_net : NetState) (given : Answer) → W.Tells → Conforming new
        → Changes W.Tells d bytes old new net now_net (Ok given) → Ready old net → ExchangeShown old.given.declared d bytes old new net now_net given }
{}
