//! Laws of what applications do, over whole histories.

ghost use Rattle.std.specs.Prelude.{◌≡◌, ℕ, List, ◌++◌, length};
ghost use Rattle.outside.specs.declared.call.FailCall.{FailCall};
ghost use Rattle.outside.specs.declared.step.WorldStep.{WorldStep};
ghost use Rattle.outside.specs.Seen.{Seen};
ghost use Rattle.outside.specs.State.{is_running, state};
ghost use Rattle.sim_world.specs.Told.{TellSame, without_links};
ghost use Rattle.sim_world.specs.Scripts.{Scripts, Life, fresh, all_fresh, will_start, will_give, next_taken, life_after, life_through, lives_through, AreScripted, KeepsScripts, FewCalls};

/// A history that keeps to the scripts did so at the end of each front of it, and it goes on to do so where each
/// step behind it is what the lives then say.
pub fn longer_scripted_history()
    ensures front { (own : Scripts) (fails : List FailCall) (xs ys : List WorldStep) → KeepsScripts own fails (xs ++ ys)
        → KeepsScripts own fails xs }
    ensures rest { (own : Scripts) (fails : List FailCall) (xs ys : List WorldStep) → KeepsScripts own fails (xs ++ ys)
        → AreScripted own fails ys (lives_through own fails xs all_fresh) }
    ensures append { (own : Scripts) (fails : List FailCall) (xs ys : List WorldStep) → KeepsScripts own fails xs
        → AreScripted own fails ys (lives_through own fails xs all_fresh) → KeepsScripts own fails (xs ++ ys) }
{}

/// An application runs in its life where it runs in the state of the world, and it had no more calls of a kind than
/// the history has steps.
pub fn lives_of_a_history()
    ensures running { (seen : Seen Scripts) (app : ℕ)
        → (life_through seen.given.own seen.given.fails app seen.history fresh).running ≡ is_running app (state seen) }
    ensures few { (own : Scripts) (fails : List FailCall) (app : ℕ) (history : List WorldStep)
        → FewCalls (length history) (life_through own fails app history fresh) }
{}

/// The calls of links that are told to fail move no life, and no answer of an application's call.
pub fn links_move_no_life()
    ensures same { (fails : List FailCall) → TellSame (without_links fails) fails }
    ensures start { (own : Scripts) (fails others : List FailCall) (app : ℕ) (l : Life) → TellSame fails others
        → will_start own fails app l ≡ will_start own others app l }
    ensures give { (fails others : List FailCall) (app : ℕ) (l : Life) → TellSame fails others
        → will_give fails app l ≡ will_give others app l }
    ensures take { (fails others : List FailCall) (app room : ℕ) (l : Life) → TellSame fails others
        → next_taken fails app room l ≡ next_taken others app room l }
    ensures step { (own : Scripts) (fails others : List FailCall) (app : ℕ) (step : WorldStep) (l : Life)
        → TellSame fails others → life_after own fails app step l ≡ life_after own others app step l }
{}
