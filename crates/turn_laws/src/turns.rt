//! Laws of turns, each the contract of a function that does nothing.

ghost use Rattle.std.specs.Prelude.{◌≡◌, ◌⊎◌, ℕ, suc, Bool, List, length, Result, Err};
ghost use Rattle.flow_table.specs.View.{TableView};
ghost use Rattle.app_frames.specs.declared.frame.Event.{Event};
ghost use Rattle.lego_model.specs.Places.{Place};
ghost use Rattle.outside.specs.Seen.{Seen};
ghost use Rattle.outside.specs.State.{state};
ghost use Rattle.outside.specs.Conforming.{Conforming};
ghost use Rattle.outside.specs.InOrder.{InOrder};
ghost use Rattle.lego_model.specs.declared.fault.TxnFault.{TxnFault};
ghost use Rattle.lego_model.specs.declared.fault.TxnFault.TheVariants.{NoMemory};
ghost use Rattle.net_txn.specs.Causes.{IsPlain};
ghost use Rattle.net_txn.specs.Net.{NetState};
ghost use Rattle.net_txn.specs.Undos.{Undoes};
ghost use Rattle.net_txn.specs.Releases.{Commits};
ghost use Rattle.app_visor.specs.declared.state.TurnEnd.{TurnEnd};
ghost use Rattle.app_visor.specs.Beats.{Stops};
ghost use Rattle.app_visor.specs.Turns.{reply_by, Turns};
ghost use Rattle.switch_laws.specs.Shown.{shown_by, shown_places};
ghost use Rattle.switch_laws.specs.Released.{StopsFor};
ghost use Rattle.switch_laws.specs.Since.{Ready, Goes};
ghost use Rattle.switch_laws.specs.Sound.{Sound};
ghost use Rattle.lego_model.specs.AfterFault.{NoEventSince, UndoneButFailed, TurnDone, TurnKept, TurnReleasing, TablesLeft};
ghost use Rattle.lego_model.specs.laws.CutTurnLaws.{CutAtMessage};
ghost use Rattle.turn_laws.specs.Chain.{PlayedAlike};

use outside::World;

/// In a world that keeps its word, where all was ready: a turn goes as the reference controller plays it on its own switches,
/// where it loses the same ones at the same messages, and these stand then as the world's do, with the flags of the owners; and the
/// same packets are held. What may have to be undone of it stands so. Its judge says of these switches what the engine's says of the
/// views, wherever views and switches stand so.
pub fn turns_are_shown<W: World>()
    ensures { (accepts : List TableView → Bool) (allows : List Place → Bool) (app budget : ℕ) (rest frame : List ℕ) (old new : Seen W.Own) (net now_net : NetState) (end : TurnEnd) (unread : List ℕ)
        → W.Tells → Conforming new → Ready old net → (t : Turns W.Tells accepts app budget rest frame old new net now_net end unread)
        → ((lost : List ℕ) → Goes (length net.log) lost old new net now_net → allows (shown_places old.given.declared (shown_by now_net) (state new)) ≡ accepts now_net.views)
        → PlayedAlike allows budget rest (reply_by t.given t.trace) old new net now_net t.answers t.outcome }
{}

/// A turn that stops in a world that keeps its word, where all was ready, stops for want of memory, where the entries were sound at the
/// message at which it stops; and so does the release of the
/// packets of one that ended, unless one of these made its switch send too many messages.
pub fn stops_are_plain<W: World>()
    ensures turn { (app : ℕ) (old new : Seen W.Own) (net now_net : NetState) (fault : TxnFault) → W.Tells → Conforming new → Ready old net
        → (stops : Stops W.Tells app old new net now_net fault) → Sound (state stops.then_seen) → IsPlain fault }
    ensures release { (accepts : List TableView → Bool) (app budget : ℕ) (rest frame : List ℕ) (old mid new : Seen W.Own) (net mid_net now_net : NetState) (end : TurnEnd) (unread : List ℕ)
        (queue now_queue : List Event) (fault : TxnFault) → W.Tells → Conforming new → Ready old net → Turns W.Tells accepts app budget rest frame old mid net mid_net end unread
        → Commits W.Tells (length net.log) mid new mid_net now_net queue now_queue (Err fault) → StopsFor old new fault }
{}

/// In a world that tells in order, where all was ready at a point up to which it kept its word: after a turn that stopped by a fault,
/// or that ended, and the undo of what it changed, however the undo ended, each switch has exactly the entries that it had
/// before the turn, or failed in the undo, with its cause there, or was lost. A change in flight is undone too.
pub fn faults_are_undone<W: World>()
    ensures stopped { (app : ℕ) (old mid new : Seen W.Own) (net mid_net now_net : NetState) (fault : TxnFault) (result : Result (Unit {0}) TxnFault) → W.Tells → Conforming old
        → InOrder new → Ready old net → Stops W.Tells app old mid net mid_net fault → Undoes W.Tells (length net.log) mid new mid_net now_net result
        → UndoneButFailed W.Tells old new }
    ensures ended { (accepts : List TableView → Bool) (app budget : ℕ) (rest frame : List ℕ) (old mid new : Seen W.Own) (net mid_net now_net : NetState) (end : TurnEnd) (unread : List ℕ)
        (result : Result (Unit {0}) TxnFault) → W.Tells → Conforming old → InOrder new → Ready old net → Turns W.Tells accepts app budget rest frame old mid net mid_net end unread
        → Undoes W.Tells (length net.log) mid new mid_net now_net result → UndoneButFailed W.Tells old new }
{}

/// In a world that tells in order, where all was ready at a point up to which it kept its word: where the commit of a whole
/// turn ended in a fault, the turn was undone, as above; or it was whole and its release was begun, and each switch moved by
/// the packets that were sent to it, and by nothing else, or was lost; or it was whole, memory was wanting before anything was
/// sent, and no switch moved.
pub fn releases_leave<W: World>()
    ensures { (accepts : List TableView → Bool) (app budget : ℕ) (rest frame : List ℕ) (old mid new : Seen W.Own) (net mid_net now_net : NetState) (end : TurnEnd) (unread : List ℕ)
        (queue now_queue : List Event) (fault : TxnFault) → W.Tells → Conforming old → InOrder new → Ready old net → Turns W.Tells accepts app budget rest frame old mid net mid_net end unread
        → TurnDone app budget old mid → Commits W.Tells (length net.log) mid new mid_net now_net queue now_queue (Err fault)
        → UndoneButFailed W.Tells old new ⊎ ((fault ≡ NoMemory) × TurnKept app budget old new) ⊎ TurnReleasing app budget old new }
{}

/// A turn that was cut off in its middle is not whole: where an application gave one message behind its event, and nothing else
/// came of it, what a fault may leave is that the turn was undone, also where memory was wanting.
pub fn cut_turns_are_undone<W: World>()
    ensures { (app budget : ℕ) (old new : Seen W.Own) → CutAtMessage app old new → TablesLeft app (suc budget) (Unit {0}) old new
        → NoEventSince old new ⊎ UndoneButFailed (Unit {0}) old new }
{}
