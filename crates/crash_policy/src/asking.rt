//! What a policy says of one kind of event.

ghost use Rattle.std.specs.Prelude.{◌≡◌};
ghost use Rattle.crash_policy.specs.Asking.{place_of, is_given, rule_at};
ghost use Rattle.crash_policy.specs.Policies.{app_value};

use crate::policy_file::{AppRule, Policy};
use app_frames::EventKind;

/// Returns the place of a kind among the six.
fn place(kind: EventKind) -> usize
    ensures { result ≡ place_of kind }
{
    match kind {
        EventKind::Join => 0,
        EventKind::Leave => 1,
        EventKind::PacketIn => 2,
        EventKind::FlowRemoved => 3,
        EventKind::PortStatus => 4,
        EventKind::SwitchError => 5,
    }
}

/// Tells what follows if the application fails at an event of that kind. Takes no memory.
#[tactic(auto, unfolding(crate::specs::Asking::rule_at))]
pub fn rule(app: &AppRule, kind: EventKind) -> Policy
    ensures { result ≡ rule_at (app_value app.now) kind }
{
    app.rules[place(kind)]
}

/// Tells whether the application is given events of that kind. Takes no memory.
#[tactic(auto, unfolding(crate::specs::Asking::is_given))]
pub fn listens(app: &AppRule, kind: EventKind) -> bool
    ensures { result ≡ is_given (app_value app.now) kind }
{
    app.events[place(kind)]
}
