//! Laws of one event, each the contract of a function that does nothing.

ghost use Rattle.std.specs.Prelude.{◌≡◌, ℕ, suc, ◌+◌, ◌^◌, ◌<◌, Bool, true, List, [], ◌∷◌, ◌++◌};
ghost use Rattle.flow_table.specs.View.{TableView};
ghost use Rattle.app_frames.specs.declared.frame.Event.{Event};
ghost use Rattle.crash_policy.specs.declared.policy_file.Policy.{Policy};
ghost use Rattle.crash_policy.specs.declared.policy_file.Policy.TheVariants as policy;
ghost use Rattle.lego_model.specs.Places.{Place};
ghost use Rattle.lego_model.specs.Controller.{dispatch, group, had_at};
ghost use Rattle.lego_model.specs.RunReport.{event_line};
ghost use Rattle.lego_model.specs.CutRun.{dispatch_partly};
ghost use Rattle.outside.specs.Seen.{Seen, Continues};
ghost use Rattle.outside.specs.Conforming.{Conforming};
ghost use Rattle.journal_laws.specs.Readings.{LastStands};
ghost use Rattle.batch_laws.specs.Calm.{Calm};
ghost use Rattle.switch_laws.specs.Orderly.{OrderlySince};
ghost use Rattle.run_laws.specs.Engine.{Engine, Focus};
ghost use Rattle.lego_model.specs.History.{own_acts};
ghost use Rattle.run_laws.specs.Facts.{StartsAgain, Follows, TakesTurn, Dispatches, DispatchesTo, says_stop, end_fails, TakesGroup, TakesEvent, group_stops};
ghost use Rattle.run_laws.specs.Moves.{AtRest, Conversing, Moved, Moves};
ghost use Rattle.lego_model.specs.ReferenceRun.{dispatch_next};
ghost use Rattle.run_laws.specs.Readings.{AreRead, JudgesAlike};
ghost use Rattle.run_laws.specs.EventMoves.{Joins, StartsAlike, TurnMoves, HadMoves};

use outside::World;

/// The application is started in the attempts of the reference controller, which comes to the same by them; and so it is with
/// what follows a turn that failed, where it may be gone instead.
pub fn starts_move<W: World>()
    ensures starts { (accepts : List TableView → Bool) (text : List ℕ) (old new : Seen W.Own) (e now_e : Focus) → W.Tells → AreRead W.Own e.index W.Tells accepts
        → StartsAgain W.Tells text old new e now_e → StartsAlike W.Tells policy.Absolute text old new e now_e }
    ensures follows { (accepts : List TableView → Bool) (rule : Policy) (text : List ℕ) (old new : Seen W.Own) (e now_e : Focus) → W.Tells → AreRead W.Own e.index W.Tells accepts
        → Follows W.Tells rule text old new e now_e → StartsAlike W.Tells rule text old new e now_e }
{}

/// In a world that keeps its word, where all was calm, the turn of the engine leaves what that of the reference controller leaves
/// that loses the same switches in it, whether it was done and its packets released, or failed and was undone, and the
/// application started again or gone.
pub fn turns_move<W: World>()
    ensures { (accepts : List TableView → Bool) (allows : List Place → Bool) (event : Event) (text : List ℕ) (old new : Seen W.Own) (e now_e : Focus)
        → W.Tells → Conforming new → JudgesAlike W.Own allows accepts → AreRead W.Own e.index W.Tells accepts → e.events < 2 ^ 64 → LastStands (own_acts e.index old)
        → Calm old e.net → (taken : TakesTurn W.Tells accepts event text old new e now_e)
        → TurnMoves allows event (says_stop taken.end) (end_fails taken.end) text old new e now_e }
{}

/// In a world that keeps its word, where all was calm, the turns at the events that an application is given in place of one leave what they
/// leave of the reference controller that loses the same switches in them: whether all were done and their packets released,
/// once, or one failed and all were undone, and the application started again with the checkpoint that was kept before. So it is with
/// all that an application has at an event: its turn, and these. The steps of them are in order, and go on with the dialogue.
pub fn groups_move<W: World>()
    ensures group { (accepts : List TableView → Bool) (allows : List Place → Bool) (event : Event) (events : List Event) (text : List ℕ) (old new : Seen W.Own) (e now_e : Focus)
        → W.Tells → Conforming new → JudgesAlike W.Own allows accepts → AreRead W.Own e.index W.Tells accepts → e.events < 2 ^ 64 → LastStands (own_acts e.index old)
        → Calm old e.net → (taken : TakesGroup W.Tells accepts (event ∷ events) text old new e now_e)
        → HadMoves (λ a r. group allows (event ∷ events) e.index a r) (group_stops taken.turning) text old new e now_e }
    ensures event { (accepts : List TableView → Bool) (allows : List Place → Bool) (event : Event) (stops : Bool) (text : List ℕ) (old new : Seen W.Own) (e now_e : Focus)
        → W.Tells → Conforming new → JudgesAlike W.Own allows accepts → e.events < 2 ^ 64 → LastStands (own_acts e.index old) → Calm old e.net
        → TakesEvent W.Tells accepts event stops text old new e now_e → HadMoves (λ a r. had_at allows event e.index a r) stops text old new e now_e }
    ensures orderly { (accepts : List TableView → Bool) (allows : List Place → Bool) (number : ℕ) (event : Event) (stops : Bool) (text : List ℕ) (old new : Seen W.Own) (e now_e : Focus)
        → W.Tells → e.index < number → Conforming new → JudgesAlike W.Own allows accepts → e.events < 2 ^ 64 → LastStands (own_acts e.index old) → Calm old e.net
        → TakesEvent W.Tells accepts event stops text old new e now_e → OrderlySince number old new }
    ensures talks { (accepts : List TableView → Bool) (event : Event) (stops : Bool) (text : List ℕ) (old new : Seen W.Own) (e now_e : Focus)
        → W.Tells → e.alive ≡ true → Conversing old e → TakesEvent W.Tells accepts event stops text old new e now_e → (Continues W.Tells old new) × Conversing new now_e }
{}

/// In a world that keeps its word, where all was at rest: what the engine does at an event is what the reference controller does at it, whether
/// it was offered to all applications or, so far, to so many of the first; all is at rest then. One event more was dispatched,
/// and those that wait stay, in front of those that join them. Where none waits, nothing is done.
pub fn events_move<W: World>()
    ensures dispatched { (accepts : List TableView → Bool) (allows : List Place → Bool) (event : Event) (text : List ℕ) (old new : Seen W.Own) (e now_e : Engine)
        → W.Tells → Conforming new → JudgesAlike W.Own allows accepts → e.events + 1 < 2 ^ 64 → AtRest old e → Dispatches W.Tells accepts event text old new e now_e
        → Moved [] (dispatch allows event) text old new e now_e }
    ensures partly { (accepts : List TableView → Bool) (allows : List Place → Bool) (n : ℕ) (event : Event) (queue : List Event) (old new : Seen W.Own) (e now_e : Engine)
        → W.Tells → Conforming new → JudgesAlike W.Own allows accepts → e.events + 1 < 2 ^ 64 → AtRest old e → e.queue ≡ event ∷ queue
        → (d : DispatchesTo W.Tells accepts event (suc n) old new (record e { queue = queue }) now_e)
        → Moved [] (dispatch_partly allows (suc n)) (event_line (e.events + 1) event.kind event.dpid ++ d.text) old new e now_e }
    ensures counted { (accepts : List TableView → Bool) (event : Event) (text : List ℕ) (old new : Seen W.Own) (e now_e : Engine)
        → Dispatches W.Tells accepts event text old new e now_e → (now_e.events ≡ e.events + 1) × Joins e.queue now_e.queue }
    ensures rests { (allows : List Place → Bool) (seen : Seen W.Own) (e : Engine) → e.queue ≡ [] → Moves [] (dispatch_next allows) [] seen seen e e }
{}
