//! Laws of longer lists of acts, each the contract of a function that does nothing.

ghost use Rattle.std.specs.Prelude.{◌≡◌, ℕ, Bool, true, false, List, [], ◌∷◌, ◌++◌, Ok};
ghost use Rattle.of_types.specs.declared.journal.Act.{Act};
ghost use Rattle.of_types.specs.declared.journal.Act.TheVariants.{Started, Gave, Gone, Ended};
ghost use Rattle.of_wire.specs.declared.bodies.FlowMod.{FlowMod as Change};
ghost use Rattle.of_wire.specs.declared.message.Message.TheVariants.{FlowMod};
ghost use Rattle.of_wire.specs.Reading.{reading_of};
ghost use Rattle.of_wire.specs.Grammar.{enveloped};
ghost use Rattle.app_frames.specs.declared.frame.Event.{Event};
ghost use Rattle.app_frames.specs.declared.frame.Answer.{Answer};
ghost use Rattle.app_frames.specs.declared.frame.Answer.TheVariants.{Fine};
ghost use Rattle.lego_model.specs.Answers.{as_sent};
ghost use Rattle.lego_model.specs.Journal.{is_event, reply_of, ReachedAtOnce};
ghost use Rattle.lego_model.specs.Controller.{restore_frame, answer_frame, event_frame};
ghost use Rattle.lego_model.specs.AtOnce.{AnsweredAtOnce};
ghost use Rattle.journal_laws.specs.Readings.{Within, LastStands, end_acts, ReadsSame, ReadsTurn, ReadsAttempt};

/// The frame of an event is an Event, and those of answers and of checkpoints are none.
pub fn events_are_frames()
    ensures event { (number moment : ℕ) (event : Event) → is_event (event_frame number moment event) ≡ true }
    ensures answer { (answer : Answer) → is_event (answer_frame answer) ≡ false }
    ensures restore { (checkpoint : List ℕ) → is_event (restore_frame checkpoint) ≡ false }
{}

/// An Event that is given, or cannot be, and what follows it up to the next one, tell of one reply more, where the last
/// attempt stands; and it stands still.
pub fn turns_are_read()
    ensures given { (app : ℕ) (frame : List ℕ) (acts more : List Act) → LastStands acts → is_event frame ≡ true → Within app more
        → ReadsTurn acts (acts ++ Gave app frame ∷ more) (reply_of (record { given = true; acts = more })) }
    ensures gone { (app : ℕ) (frame : List ℕ) (acts more : List Act) → LastStands acts → is_event frame ≡ true → Within app more
        → ReadsTurn acts (acts ++ Gone app frame ∷ more) (reply_of (record { given = false; acts = more })) }
{}

/// An attempt tells of one start more and of no reply, whether the application was ended before or not; where it stands, the
/// last attempt does.
pub fn attempts_are_read()
    ensures { (app : ℕ) (ended stands : Bool) (acts more : List Act) → Within app more
        → ReadsAttempt acts (acts ++ (end_acts ended app ++ Started app stands ∷ more)) (record { stands = stands; acts = more }) }
{}

/// That it is ended tells nothing more.
pub fn ends_are_read()
    ensures { (app : ℕ) (acts : List Act) → ReadsSame acts (acts ++ Ended app ∷ []) }
{}

/// A change that was answered at once, and that is fine, reached its switch: no host says so by itself.
pub fn fine_changes_have_reached()
    ensures { (dpid : ℕ) (bytes : List ℕ) (since : List Act) (xid : ℕ) (m : Change) → reading_of bytes ≡ Ok (enveloped xid (FlowMod m))
        → AnsweredAtOnce dpid bytes Fine since → ReachedAtOnce dpid (as_sent (FlowMod m)) since }
{}
