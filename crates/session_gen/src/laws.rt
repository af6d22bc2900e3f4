//! What is so of all sessions that are drawn.

ghost use Rattle.std.specs.Prelude.{ℕ, ◌≤◌};
ghost use Rattle.lego_model.specs.SessionFacts.{IsSession, IsOf};
ghost use Rattle.session_gen.specs.Sessions.{session_drawn};

/// A session that is drawn keeps all limits, with at most 100,000 rounds, and it is of one application.
pub fn drawn_sessions_are_sound()
    ensures sound { (start count : ℕ) → count ≤ 100000 → IsSession (session_drawn start count) }
    ensures named { (start count : ℕ) → IsOf 1 (session_drawn start count) }
{}
