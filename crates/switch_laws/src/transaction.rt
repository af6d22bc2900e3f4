//! Laws of transactions, each the contract of a function that does nothing.

ghost use Rattle.std.specs.Prelude.{◌≡◌, ℕ, List, [], length, Result, Ok, Err, Some};
ghost use Rattle.flow_table.specs.Switch.{SwitchState};
ghost use Rattle.undo_laws.specs.Serials.{IsSerialed};
ghost use Rattle.app_frames.specs.declared.frame.Answer.{Answer};
ghost use Rattle.lego_model.specs.AfterFault.{UndoneButFailed};
ghost use Rattle.lego_model.specs.declared.fault.TxnFault.{TxnFault};
ghost use Rattle.outside.specs.Seen.{Seen, Continues};
ghost use Rattle.outside.specs.State.{state, switch_of};
ghost use Rattle.outside.specs.Conforming.{Conforming};
ghost use Rattle.net_txn.specs.Net.{NetState};
ghost use Rattle.net_txn.specs.Changes.{Changes};
ghost use Rattle.net_txn.specs.Undos.{Undoes, lost_parts};
ghost use Rattle.switch_laws.specs.Lost.{UndoShown};
ghost use Rattle.switch_laws.specs.Shown.{Stand};
ghost use Rattle.switch_laws.specs.Since.{Ready, Since, Goes, GoesOn, TablesSince};

use outside::World;

/// In every history the switches that are joined are declared, and their tables stand in key order with serials that differ.
pub fn histories_stand<W: World>()
    ensures all { (seen : Seen W.Own) → Stand seen.given.declared (state seen) }
    ensures serials { (seen : Seen W.Own) (d : ℕ) (s : SwitchState) → switch_of d (state seen) ≡ Some s → IsSerialed s.table }
{}

/// A transaction stands to where it began as one may that can be undone: at first, and after each message that was answered
/// in a world that keeps its word, whether or not its switch was lost; and then all is ready for the next one.
pub fn transactions_stand<W: World>()
    ensures begun { (seen : Seen W.Own) (net : NetState) → Since (length net.log) [] seen seen net net }
    ensures goes_on { (d : ℕ) (bytes : List ℕ) (start : ℕ) (lost : List ℕ) (first old new : Seen W.Own) (net0 net now_net : NetState) (given : Answer)
        → W.Tells → Conforming new → Changes W.Tells d bytes old new net now_net (Ok given) → Goes start lost first old net0 net
        → GoesOn start lost first old new net0 now_net }
{}

/// An undo that succeeded in a world that keeps its word: as they are shown the switches are those of the reference
/// controller that gets the earlier tables back and loses the same switches in it, and all is ready again.
pub fn undos_are_shown<W: World>()
    ensures shown { (start : ℕ) (lost : List ℕ) (first old new : Seen W.Own) (net0 net now_net : NetState) → W.Tells → Conforming new → Since start lost first old net0 net
        → Ready old net → (u : Undoes W.Tells start old new net now_net (Ok tt)) → UndoShown old.given.declared (lost_parts u.parts) first old new net0 net now_net }
    ensures ready { (start : ℕ) (lost : List ℕ) (first old new : Seen W.Own) (net0 net now_net : NetState) → W.Tells → Conforming new → Since start lost first old net0 net
        → Ready old net → Undoes W.Tells start old new net now_net (Ok tt) → Ready new now_net }
{}

/// After a fault in any world that tells, however the undo of the transaction ended: a message that ended in a fault leaves its
/// transaction such that only logged keys were added to each table since it began, with the change in flight; and then the undo
/// gives each switch its entries back, unless it failed in the undo, or was lost.
pub fn faults_are_undone<W: World>()
    ensures ready { (start : ℕ) (lost : List ℕ) (first now : Seen W.Own) (net0 net : NetState) → W.Tells → Continues W.Tells first now → Goes start lost first now net0 net
        → TablesSince start first now net }
    ensures fault { (d : ℕ) (bytes : List ℕ) (start : ℕ) (lost : List ℕ) (first old new : Seen W.Own) (net0 net now_net : NetState) (fault : TxnFault) → W.Tells
        → Continues W.Tells first old → Changes W.Tells d bytes old new net now_net (Err fault) → Goes start lost first old net0 net → TablesSince start first new now_net }
    ensures undone { (start : ℕ) (first old new : Seen W.Own) (net now_net : NetState) (result : Result (Unit {0}) TxnFault) → W.Tells → Continues W.Tells first old
        → TablesSince start first old net → Undoes W.Tells start old new net now_net result → UndoneButFailed W.Tells first new }
{}
