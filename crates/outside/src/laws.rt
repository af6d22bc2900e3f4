//! Laws of histories, each the contract of a function that does nothing.

ghost use Rattle.std.specs.Prelude.{◌≡◌, ◌≢◌, ℕ, true, false, List, [], ◌∷◌, ◌++◌, take, drop, Ok, Err, Some, None, IsOk, slice_get};
ghost use Rattle.of_types.specs.declared.journal.Act.TheVariants.{Sent, Got, Lost};
ghost use Rattle.of_wire.specs.Reading.{reading_of};
ghost use Rattle.flow_table.specs.Switch.{Declared};
ghost use Rattle.outside.specs.declared.item.Item.{Item};
ghost use Rattle.outside.specs.declared.step.WorldStep.{WorldStep};
ghost use Rattle.outside.specs.declared.step.WorldStep.TheVariants.{Acted, SendLost, RecvLost, SendFailed, RecvFailed};
ghost use Rattle.outside.specs.Seen.{Seen, Counts, NoneFell, Continues, LinkHeld, journal};
ghost use Rattle.outside.specs.Stimuli.{stimuli};
ghost use Rattle.outside.specs.State.{State, after_step, after_steps, state, switch_of, waits_of, is_joined, upcoming, switch_told, message_sends, but_marks};
ghost use Rattle.outside.specs.Calls.{Sends, Receives, item_step};
ghost use Rattle.outside.specs.Conforming.{MayStep, MaySteps, Conforming};
ghost use Rattle.outside.specs.InOrder.{InOrder};

use crate::faults::LinkFault;
use crate::item::Item;
use crate::world::World;

/// A history that goes on: its journal and its state are those of the front, with the rest behind.
pub fn longer_history()
    ensures journal { (xs ys : List WorldStep) → journal (xs ++ ys) ≡ journal xs ++ journal ys }
    ensures state { (xs ys : List WorldStep) (s : State) → after_steps (xs ++ ys) s ≡ after_steps ys (after_steps xs s) }
{}

/// Whoever keeps its word at the end of a history kept it at the end of each front of it, and what comes behind
/// the front may come then.
pub fn conforming_before<W: World>()
    ensures front { (old new : Seen W.Own) (steps : List WorldStep) → new.given ≡ old.given
        → new.history ≡ old.history ++ steps → Conforming new → Conforming old }
    ensures rest { (old new : Seen W.Own) (steps : List WorldStep) → new.given ≡ old.given
        → new.history ≡ old.history ++ steps → Conforming new → MaySteps old.given.declared steps (state old) }
{}

/// Calls after calls: what later calls leave is later, and where nothing failed on a switch over both, nothing
/// failed over either.
pub fn later_calls<W: World>()
    ensures continues { (a b c : Seen W.Own) → Continues W.Tells a b → Continues W.Tells b c → Continues W.Tells a c }
    ensures first { (d : ℕ) (a b c : Counts) → NoneFell a b → NoneFell b c → LinkHeld d a c → LinkHeld d a b }
    ensures second { (d : ℕ) (a b c : Counts) → NoneFell a b → NoneFell b c → LinkHeld d a c → LinkHeld d b c }
{}

/// A message that is sent to a switch moves that one alone, and what it sends then waits behind what waited.
pub fn sent_moves_one()
    ensures moved { (d : ℕ) (bytes : List ℕ) (s : State) → switch_of d (after_step (Acted (Sent d bytes)) s)
        ≡ switch_told (reading_of bytes) (switch_of d s) }
    ensures waits { (d : ℕ) (bytes : List ℕ) (s : State) → waits_of d (after_step (Acted (Sent d bytes)) s)
        ≡ waits_of d s ++ message_sends (reading_of bytes) (switch_of d s) }
    ensures others { (d e : ℕ) (bytes : List ℕ) (s : State) → e ≢ d
        → switch_of e (after_step (Acted (Sent d bytes)) s) ≡ switch_of e s }
    ensures others_wait { (d e : ℕ) (bytes : List ℕ) (s : State) → e ≢ d
        → waits_of e (after_step (Acted (Sent d bytes)) s) ≡ waits_of e s }
{}

/// A message that is taken from a switch waits no more, and no switch moves.
pub fn taken_moves_none()
    ensures waits { (d : ℕ) (bytes : List ℕ) (s : State) → waits_of d (after_step (Acted (Got d bytes)) s)
        ≡ drop 1 (waits_of d s) }
    ensures stays { (d : ℕ) (bytes : List ℕ) (s : State) → switch_of d (after_step (Acted (Got d bytes)) s) ≡ switch_of d s }
    ensures others { (d e : ℕ) (bytes : List ℕ) (s : State) → e ≢ d
        → switch_of e (after_step (Acted (Got d bytes)) s) ≡ switch_of e s }
    ensures others_wait { (d e : ℕ) (bytes : List ℕ) (s : State) → e ≢ d
        → waits_of e (after_step (Acted (Got d bytes)) s) ≡ waits_of e s }
{}

/// A switch that is lost is out, nothing of it waits, and the others stay.
pub fn lost_goes_out()
    ensures sends { (d : ℕ) (s : State) → switch_of d (after_step (SendLost d) s) ≡ None }
    ensures sends_no_more { (d : ℕ) (s : State) → waits_of d (after_step (SendLost d) s) ≡ [] }
    ensures receives { (d : ℕ) (s : State) → switch_of d (after_step (RecvLost d) s) ≡ None }
    ensures receives_no_more { (d : ℕ) (s : State) → waits_of d (after_step (RecvLost d) s) ≡ [] }
    ensures others { (d e : ℕ) (s : State) → e ≢ d → switch_of e (after_step (SendLost d) s) ≡ switch_of e s }
    ensures others_wait { (d e : ℕ) (s : State) → e ≢ d → waits_of e (after_step (SendLost d) s) ≡ waits_of e s }
    ensures other_ones { (d e : ℕ) (s : State) → e ≢ d → switch_of e (after_step (RecvLost d) s) ≡ switch_of e s }
    ensures other_ones_wait { (d e : ℕ) (s : State) → e ≢ d → waits_of e (after_step (RecvLost d) s) ≡ waits_of e s }
{}

/// A call that fails for a switch that is out moves none.
pub fn failed_moves_none()
    ensures sends { (d e : ℕ) (s : State) → switch_of e (after_step (SendFailed d) s) ≡ switch_of e s }
    ensures sends_none { (d e : ℕ) (s : State) → waits_of e (after_step (SendFailed d) s) ≡ waits_of e s }
    ensures receives { (d e : ℕ) (s : State) → switch_of e (after_step (RecvFailed d) s) ≡ switch_of e s }
    ensures receives_none { (d e : ℕ) (s : State) → waits_of e (after_step (RecvFailed d) s) ≡ waits_of e s }
{}

/// In a world that tells, a call of a link that fails loses the switch where it was joined, and moves none where it
/// was out; it is out afterwards either way.
pub fn failed_call_loses<W: World>()
    ensures lost_sending { (d : ℕ) (frame : List ℕ) (old new : Seen W.Own) → W.Tells
        → Sends {T = Unit {0}} W.Tells d frame old new (Err LinkFault.Failed) → is_joined d (state old) ≡ true
        → state new ≡ after_step (SendLost d) (state old) }
    ensures lost_receiving { (d : ℕ) (buf : List ℕ) (old new : Seen W.Own) → W.Tells
        → Receives W.Tells d old new (Err LinkFault.Failed) buf → is_joined d (state old) ≡ true
        → state new ≡ after_step (RecvLost d) (state old) }
    ensures out_sending { (d : ℕ) (frame : List ℕ) (old new : Seen W.Own) → W.Tells
        → Sends {T = Unit {0}} W.Tells d frame old new (Err LinkFault.Failed) → is_joined d (state old) ≡ false
        → state new ≡ after_step (SendFailed d) (state old) }
    ensures out_receiving { (d : ℕ) (buf : List ℕ) (old new : Seen W.Own) → W.Tells
        → Receives W.Tells d old new (Err LinkFault.Failed) buf → is_joined d (state old) ≡ false
        → state new ≡ after_step (RecvFailed d) (state old) }
    ensures sending_out { (d : ℕ) (frame : List ℕ) (old new : Seen W.Own) → W.Tells
        → Sends {T = Unit {0}} W.Tells d frame old new (Err LinkFault.Failed) → is_joined d (state new) ≡ false }
    ensures receiving_out { (d : ℕ) (buf : List ℕ) (old new : Seen W.Own) → W.Tells
        → Receives W.Tells d old new (Err LinkFault.Failed) buf → is_joined d (state new) ≡ false }
{}

/// The journal has it where a switch is lost.
pub fn loss_is_told<W: World>()
    ensures sending { (d : ℕ) (frame : List ℕ) (old new : Seen W.Own) → W.Tells
        → Sends {T = Unit {0}} W.Tells d frame old new (Err LinkFault.Failed) → is_joined d (state old) ≡ true
        → journal new.history ≡ journal old.history ++ Lost d ∷ [] }
    ensures receiving { (d : ℕ) (buf : List ℕ) (old new : Seen W.Own) → W.Tells
        → Receives W.Tells d old new (Err LinkFault.Failed) buf → is_joined d (state old) ≡ true
        → journal new.history ≡ journal old.history ++ Lost d ∷ [] }
{}

/// No step looks at the marks, but to append to them.
pub fn marks_steer_nothing()
    ensures { (step : WorldStep) (s : State) → but_marks (after_step step s) ≡ but_marks (after_step step (but_marks s)) }
{}

/// In a world that keeps its word, the message that `recv` takes is the oldest one that waits and is read by
/// `of_wire`; it moves the state as the step that it is.
pub fn receives_the_next<W: World>()
    ensures next { (d : ℕ) (old new : Seen W.Own) (buf : List ℕ) (n : ℕ) → W.Tells → Receives W.Tells d old new (Ok n) buf
        → Conforming new → (slice_get (waits_of d (state old)) 0 ≡ Some (take n buf)) × IsOk (reading_of (take n buf)) }
    ensures moves { (d : ℕ) (old new : Seen W.Own) (buf : List ℕ) (n : ℕ) → W.Tells → Receives W.Tells d old new (Ok n) buf
        → state new ≡ after_step (Acted (Got d (take n buf))) (state old) }
{}

/// Where nothing is upcoming and no stimulus is begun, the only item that may come without one is `End`, after
/// the last stimulus.
pub fn rests_until_a_stimulus()
    ensures { (declared : List Declared) (item : Item) (buf : List ℕ) (s : State) → s.begun ≡ false → upcoming s ≡ []
        → MayStep declared (item_step item buf) s → (item ≡ Item.End) × (s.to_come ≡ []) }
{}

/// In a world that tells in order, the stimuli that were begun are the first of those that it was given, and the
/// others are still to come.
pub fn stimuli_begin_in_order<W: World>()
    ensures { (seen : Seen W.Own) → InOrder seen → stimuli (journal seen.history) ++ (state seen).to_come ≡ seen.given.stimuli }
{}
