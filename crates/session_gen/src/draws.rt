//! Numbers that look as if they were drawn.

ghost use Rattle.std.specs.Prelude.{◌≡◌, ◌<◌};
ghost use Rattle.session_gen.specs.Draws.{next, number_below};

/// Numbers from 0 on, each behind the one before it: those of a linear congruential generator.
#[derive(Drop, Debug)]
pub(crate) struct Draws {
    pub(crate) state: u64,
}

/// Moves a state on, modulo 2^64.
#[tactic(auto, unfolding(crate::specs::Draws::next))]
fn next(state: u64) -> u64
    ensures { result ≡ next state }
{
    state
        .wrapping_mul(6_364_136_223_846_793_005)
        .wrapping_add(1_442_695_040_888_963_407)
}

/// Gives the number below `n` of a state.
#[tactic(auto, unfolding(crate::specs::Draws::number_below))]
fn number_below(n: u16, state: u64) -> u16
    requires { 0 < n }
    ensures value { result ≡ number_below n state }
    ensures less { result < n }
{
    ((state >> 33) % u64::from(n)) as u16
}

impl Draws {
    /// Draws a number below `n`.
    pub(crate) fn draw(&mut self, n: u16) -> u16
        requires { 0 < n }
        ensures value { result ≡ number_below n (next self.old.state) }
        ensures less { result < n }
        ensures state { self.new.state ≡ next self.old.state }
    {
        self.state = next(self.state);
        number_below(n, self.state)
    }
}
