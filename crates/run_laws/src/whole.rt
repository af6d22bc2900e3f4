//! Laws of whole runs, each the contract of a function that does nothing.

ghost use Rattle.std.specs.Prelude.{◌≡◌, ◌⊎◌, ℕ, ◌+◌, ◌^◌, ◌<◌, ◌≤◌, Bool, true, List, [], ◌∷◌, ◌++◌, length, Option};
ghost use Rattle.std.specs.Io.KnownBytes.{append_known};
ghost use Rattle.lego_io.specs.Sink.{TookPart};
ghost use Rattle.of_types.specs.declared.journal.WorldStim.{WorldStim};
ghost use Rattle.flow_table.specs.View.{TableView};
ghost use Rattle.app_frames.specs.declared.frame.Event.{Event};
ghost use Rattle.crash_policy.specs.Policies.{AppValue};
ghost use Rattle.lego_model.specs.Places.{Place};
ghost use Rattle.outside.specs.Seen.{Seen, Continues};
ghost use Rattle.outside.specs.Calls.{Ends};
ghost use Rattle.outside.specs.Conforming.{Conforming};
ghost use Rattle.batch_laws.specs.Batches.{Standing};
ghost use Rattle.batch_laws.specs.InBatch.{BatchEnds, BatchOver};
ghost use Rattle.run_laws.specs.Engine.{Engine, engine_then};
ghost use Rattle.lego_model.specs.History.{stimuli_in};
ghost use Rattle.run_laws.specs.Facts.{takes_next, Dispatches};
ghost use Rattle.run_laws.specs.Readings.{JudgesAlike};
ghost use Rattle.run_laws.specs.Moves.{AtRest, Moved, Shown, OneHappens};
ghost use Rattle.lego_model.specs.ReferenceRun.{dispatch_next, all_started};
ghost use Rattle.run_laws.specs.First.{IsOpened, engine_at_first};
ghost use Rattle.lego_model.specs.WholeRun.{is_spent, EndsAlike, LeavesAlike};
ghost use Rattle.run_laws.specs.Endings.{Leaves, RanOut, RanFull};
ghost use Rattle.run_laws.specs.LastReport.{last_text};
ghost use Rattle.run_laws.specs.Cut.{GoneSoFar, GoneWithin};
ghost use Rattle.lego_model.specs.AllLines.{CutBehindLines, CutInLines, CutForMemory};
ghost use Rattle.lego_model.specs.CutRun.{CutBetweenLines};

use outside::World;

/// In a world that keeps its word a batch is the next stimulus of the reference controller, with the events that it makes,
/// and with its switch lost where it is lost, and told; and the last one, that has none, is nothing.
pub fn batches_move<W: World>()
    ensures happens { (x : WorldStim) (text : List ℕ) (first now : Standing W.Own) (e : Engine) → W.Tells → Continues W.Tells first.seen now.seen
        → Conforming first.seen → AtRest first.seen e → e.net ≡ first.net → e.queue ≡ first.queue → BatchEnds x first now
        → now.text ≡ first.text ++ text → OneHappens text first.seen now.seen e (engine_then e now.net now.queue) }
    ensures over { (text : List ℕ) (first now : Standing W.Own) (e : Engine) → AtRest first.seen e → e.net ≡ first.net → e.queue ≡ first.queue
        → BatchOver first now → now.text ≡ first.text ++ text → Moved [] (λ r. r) text first.seen now.seen e (engine_then e now.net now.queue) }
{}

/// In a world that keeps its word the oldest event that waits is dispatched as the reference controller dispatches it.
pub fn oldest_events_move<W: World>()
    ensures { (accepts : List TableView → Bool) (event : Event) (queue : List Event) (text : List ℕ) (old new : Seen W.Own) (e now_e : Engine)
        → Continues W.Tells old new → e.events + 1 < 2 ^ 64 → e.queue ≡ event ∷ queue
        → Dispatches W.Tells accepts event text old new (record e { queue = queue }) now_e → Shown W.Tells accepts [] dispatch_next text old new e now_e }
{}

/// In a world that tells, the end of an application leaves what the world told of the run; and behind the questions for rows, in
/// which switches may be lost, and the ends of others, both together do.
pub fn ends_leave<W: World>()
    ensures end { (app number : ℕ) (old new : Seen W.Own) → W.Tells → app < number → Ends W.Tells app old new → Leaves number [] old new }
    ensures both { (number : ℕ) (lost : List ℕ) (old mid new : Seen W.Own) → Leaves number lost old mid → Leaves number [] mid new → Leaves number lost old new }
{}

/// Of a world that was just opened and that keeps its word: a run whose parts are those of the reference controller is the run
/// of the reference controller over what the world told, and over all that was said of the applications, of which the world
/// told the fronts. At every quiescent point the tables agree, each application was given what
/// it is given there, and what was written is its report, whole where all events were dispatched. It takes at most as many
/// stimuli as there are rounds, and where it takes so many nothing is dispatched behind the last. The journal is a dialogue
/// with each application: each answer is to its next message, a change has reached its switch at once where it is answered, and
/// no call for an application is a stray one.
pub fn runs_are_the_references<W: World>()
    ensures out { (rules : List AppValue) (accepts : List TableView → Bool) (allows : List Place → Bool) (most : ℕ) (contents now_contents : Option (List ℕ)) (old new : Seen W.Own) (e : Engine)
        → W.Tells → Conforming new → JudgesAlike W.Own allows accepts → IsOpened old
        → RanOut W.Tells accepts most contents now_contents old new (engine_at_first rules) e
        → EndsAlike rules allows (is_spent most new) new contents now_contents e.events × (length (stimuli_in new) ≤ most) }
    ensures full { (rules : List AppValue) (accepts : List TableView → Bool) (allows : List Place → Bool) (most left : ℕ) (contents now_contents : Option (List ℕ)) (old new : Seen W.Own)
        → W.Tells → Conforming new → JudgesAlike W.Own allows accepts → IsOpened old
        → RanFull W.Tells accepts most left contents now_contents old new (engine_at_first rules)
        → LeavesAlike rules allows (is_spent most new) new contents now_contents left × (length (stimuli_in new) ≤ most) }
{}

/// Of a world that was just opened and that keeps its word up to a point: where a fault ends a run whose parts are those of the
/// reference controller so far, perhaps with an event that was given to some applications and not yet to all, the run is the
/// reference controller's up to there, and what was written is what this says so far, but for the lines of that event.
/// No line is missing where all events before the fault were dispatched, since none waits behind the last stimulus that was
/// settled, or none at all, or some application is given the next one. Or the sink failed at the lines of the
/// start, of a switch that was lost in a batch, of an event or of the end, behind all lines before them. Or memory was wanting: before any
/// stimulus, or behind the lines of the start.
pub fn cut_runs_are_the_references<W: World>()
    ensures cut { (rules : List AppValue) (allows : List Place → Bool) (number given : ℕ) (text : List ℕ) (contents now_contents : Option (List ℕ)) (first last : Seen W.Own) (e : Engine)
        → IsOpened first → GoneWithin allows number given text first last (engine_at_first rules) e → number ≤ 1000 → Conforming last
        → now_contents ≡ append_known contents text → CutBetweenLines rules allows last contents now_contents }
    ensures lines { (rules : List AppValue) (allows : List Place → Bool) (number given : ℕ) (text : List ℕ) (contents now_contents : Option (List ℕ)) (first last : Seen W.Own) (e : Engine)
        → IsOpened first → (gone : GoneWithin allows number given text first last (engine_at_first rules) e) → number ≤ 1000
        → ((gone.gone.begun ≡ []) × (number ≡ 0) × (given ≡ 0)) ⊎ (gone.here_engine.queue ≡ []) ⊎ (takes_next gone.here_engine.apps gone.here_engine.queue ≡ true) → Conforming last
        → now_contents ≡ append_known contents text → CutBehindLines rules allows last contents now_contents }
    ensures short { (rules : List AppValue) (allows : List Place → Bool) (number given : ℕ) (text : List ℕ) (contents now_contents : Option (List ℕ)) (first last seen : Seen W.Own) (e : Engine)
        → IsOpened first → GoneWithin allows number given text first last (engine_at_first rules) e → number ≤ 1000 → Conforming last
        → now_contents ≡ append_known contents text → CutForMemory rules allows seen last contents now_contents }
    ensures unstarted { (rules : List AppValue) (allows : List Place → Bool) (contents now_contents : Option (List ℕ)) (first seen : Seen W.Own)
        → IsOpened first → AtRest first (engine_at_first rules) → Conforming first → stimuli_in seen ≡ [] → now_contents ≡ contents
        → CutForMemory rules allows seen first contents now_contents }
    ensures start { (rules : List AppValue) (allows : List Place → Bool) (more : List ℕ) (contents now_contents : Option (List ℕ)) (first last : Seen W.Own) (e : Engine)
        → IsOpened first → Moved [] all_started more first last (engine_at_first rules) e → Conforming last → TookPart contents now_contents more
        → CutInLines rules allows last contents now_contents }
    ensures event { (rules : List AppValue) (allows : List Place → Bool) (number : ℕ) (text more : List ℕ) (contents now_contents : Option (List ℕ)) (first mid last : Seen W.Own) (e now_e : Engine)
        → IsOpened first → GoneSoFar allows true number text first mid (engine_at_first rules) e → Moved [] (dispatch_next allows) more mid last e now_e → number ≤ 999
        → Conforming last → TookPart (append_known contents text) now_contents more → CutInLines rules allows last contents now_contents }
    ensures loss { (rules : List AppValue) (allows : List Place → Bool) (text more : List ℕ) (contents now_contents : Option (List ℕ)) (first mid last : Seen W.Own) (e now_e : Engine)
        → IsOpened first → (gone : GoneSoFar allows true 0 text first mid (engine_at_first rules) e) → gone.begun ≡ [] → OneHappens more mid last e now_e
        → Conforming last → TookPart (append_known contents text) now_contents more → CutInLines rules allows last contents now_contents }
    ensures end { (rules : List AppValue) (allows : List Place → Bool) (number : ℕ) (lost : List ℕ) (text more : List ℕ) (contents now_contents : Option (List ℕ)) (first last stop : Seen W.Own) (e : Engine)
        → IsOpened first → GoneSoFar allows true number text first last (engine_at_first rules) e → number ≤ 1000 → e.queue ≡ [] → more ≡ last_text lost last e → Leaves (length e.apps) lost last stop
        → Conforming stop → TookPart (append_known contents text) now_contents more → CutInLines rules allows stop contents now_contents }
{}
