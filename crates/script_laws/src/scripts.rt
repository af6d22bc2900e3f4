//! Laws of applications that keep to their lines, each the contract of a function that does nothing.

ghost use Rattle.std.specs.Prelude.{◌≤◌, ℕ, [], length, filter};
ghost use Rattle.std.specs.List.{AllByRecursion};
ghost use Rattle.lego_model.specs.Journal.{is_of};
ghost use Rattle.lego_model.specs.AtOnce.{AtOnce};
ghost use Rattle.lego_model.specs.Scripted.{starts_said, replies_said, AreStartFronts, AreFronts};
ghost use Rattle.lego_model.specs.History.{starts_in, replies_in};
ghost use Rattle.outside.specs.Seen.{Seen, journal};
ghost use Rattle.sim_world.specs.Scripts.{Scripts, starts_of, replies_of, KeepsScripts};
ghost use Rattle.script_laws.specs.Ahead.{HasRoom};

/// Where no call for an application is told to fail, its bytes are taken up to 65,536 at once, and the journal is a dialogue with
/// it: the starts that the journal tells are the fronts of those that its lines say, in their order, and behind the last line
/// each is ready; and so are its replies, which behind the last line are done at once.
pub fn journals_tell_fronts()
    ensures { (app : ℕ) (own : Scripts) (seen : Seen Scripts) (more : ℕ) → KeepsScripts own [] seen.history → AllByRecursion HasRoom seen.history
        → AtOnce app (journal seen.history)
        → length (starts_in (filter (is_of app) (journal seen.history))) ≤ more
        → length (replies_in (filter (is_of app) (journal seen.history))) ≤ more
        → AreStartFronts (starts_in (filter (is_of app) (journal seen.history))) (starts_said more (starts_of app own))
        × AreFronts (replies_in (filter (is_of app) (journal seen.history))) (replies_said more (replies_of app own)) }
{}
