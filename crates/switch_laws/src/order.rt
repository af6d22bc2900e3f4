//! Laws of steps in order, and of what they release and which switches they lose, each the contract of a function that does nothing.

ghost use Rattle.std.specs.Prelude.{◌≡◌, ℕ, List, [], Result, Ok};
ghost use Rattle.app_frames.specs.declared.frame.Answer.{Answer};
ghost use Rattle.app_frames.specs.declared.frame.Event.{Event};
ghost use Rattle.lego_model.specs.declared.fault.TxnFault.{TxnFault};
ghost use Rattle.lego_model.specs.History.{released_of};
ghost use Rattle.lego_model.specs.Journal.{released, losses};
ghost use Rattle.outside.specs.declared.step.WorldStep.{WorldStep};
ghost use Rattle.outside.specs.InOrder.{InOrder};
ghost use Rattle.outside.specs.Seen.{Seen, journal};
ghost use Rattle.outside.specs.State.{state};
ghost use Rattle.net_txn.specs.Net.{NetState};
ghost use Rattle.net_txn.specs.Changes.{Changes};
ghost use Rattle.net_txn.specs.Releases.{Commits};
ghost use Rattle.net_txn.specs.Undos.{AreJoined, Undoes};
ghost use Rattle.switch_laws.specs.Orderly.{OrderlySince};
ghost use Rattle.switch_laws.specs.Released.{ReleasesNone, LosesNone};

use outside::World;

/// In a world that tells in order, where each switch that has a view was joined: no call of a link failed but by the loss of its switch,
/// however a message of an application, an undo and a commit ended.
pub fn steps_are_in_order<W: World>()
    ensures exchange { (app d : ℕ) (bytes : List ℕ) (old new : Seen W.Own) (net now_net : NetState) (result : Result Answer TxnFault) → W.Tells
        → InOrder new → AreJoined net.views (state old) → Changes W.Tells d bytes old new net now_net result → OrderlySince app old new }
    ensures undo { (app start : ℕ) (old new : Seen W.Own) (net now_net : NetState) (result : Result (Unit {0}) TxnFault) → W.Tells
        → InOrder new → AreJoined net.views (state old) → Undoes W.Tells start old new net now_net result → OrderlySince app old new }
    ensures release { (app start : ℕ) (old new : Seen W.Own) (net now_net : NetState) (queue now_queue : List Event) (result : Result (List (ℕ × ℕ)) TxnFault) → W.Tells
        → InOrder new → AreJoined net.views (state old) → Commits W.Tells start old new net now_net queue now_queue result → OrderlySince app old new }
{}

/// In a world that tells, whatever it does, where each switch that has a view was joined: a message of an application that was answered,
/// and an undo, released no packet; nor did steps each of which releases none, nor lost steps a switch each of which loses none.
pub fn none_is_released<W: World>()
    ensures exchange { (d : ℕ) (bytes : List ℕ) (old new : Seen W.Own) (net now_net : NetState) (given : Answer) → W.Tells → AreJoined net.views (state old)
        → Changes W.Tells d bytes old new net now_net (Ok given) → released_of new ≡ released_of old }
    ensures undo { (start : ℕ) (old new : Seen W.Own) (net now_net : NetState) (result : Result (Unit {0}) TxnFault) → W.Tells
        → Undoes W.Tells start old new net now_net result → released_of new ≡ released_of old }
    ensures steps { (steps : List WorldStep) → ReleasesNone steps → released (journal steps) ≡ [] }
    ensures losses { (steps : List WorldStep) → LosesNone steps → losses (journal steps) ≡ [] }
{}
