//! Laws of batches, each the contract of a function that does nothing.

ghost use Rattle.std.specs.Prelude.{Bool, List};
ghost use Rattle.of_types.specs.declared.journal.WorldStim.{WorldStim};
ghost use Rattle.app_frames.specs.declared.frame.Event.{Event};
ghost use Rattle.outside.specs.Seen.{Seen};
ghost use Rattle.outside.specs.State.{state, after_stim, upcoming};
ghost use Rattle.outside.specs.Conforming.{Conforming, IsWorldStim};
ghost use Rattle.net_txn.specs.Net.{NetState};
ghost use Rattle.batch_laws.specs.Knowledge.{knowledge_of, handled_all};
ghost use Rattle.batch_laws.specs.Calm.{Calm};
ghost use Rattle.batch_laws.specs.Batches.{Standing};
ghost use Rattle.batch_laws.specs.InBatch.{BatchLost};
ghost use Rattle.batch_laws.specs.Tells.{StimulusHandled, StimulusLost};

use outside::World;

/// In a world that keeps its word, where all was calm: what the engine knows once it has handled the items of a stimulus is
/// what the reference controller has after it - the events, the switches with the flags of their owners, the known ports, the
/// moment.
pub fn stimuli_are_handled<W: World>()
    ensures { (x : WorldStim) (seen : Seen W.Own) (net : NetState) (queue : List Event) → Conforming seen → Calm seen net
        → IsWorldStim seen.given.declared (state seen).moment x
        → StimulusHandled x seen net queue (handled_all (upcoming (after_stim x (state seen))) (knowledge_of net queue)) }
{}

/// So it is where the switch of the stimulus was lost at its item: it is out then, as the reference controller has it.
pub fn losses_are_handled<W: World>()
    ensures { (x : WorldStim) (begun : Bool) (first now : Standing W.Own) → Conforming first.seen → Calm first.seen first.net
        → (l : BatchLost x begun first now) → StimulusLost x l.dpid first.seen now.seen first.net first.queue (knowledge_of now.net now.queue) }
{}
