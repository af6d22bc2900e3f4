//! What `remaining` is for, as the contract of a function that does nothing.

ghost use Rattle.std.specs.Prelude.{◌≡◌, ◌≢◌, ◌+◌, ◌<◌, ℕ};
ghost use Rattle.flow_timeouts.specs.Timeouts.{end_of, remaining_of};

/// An entry that is added again at some age, with what is left of its hard timeout, ends when it would have.
pub fn hard_deadline_stays()
    ensures { (installed hard age : ℕ) → (hard ≢ 0 → age < hard) → end_of (installed + age) (remaining_of hard age) ≡ end_of installed hard }
{}
