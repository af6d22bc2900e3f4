//! The words and the keys that a policy text may have.

ghost use Rattle.std.specs.Prelude.{◌≡◌};
ghost use Rattle.std.specs.List.{list_all};
ghost use Rattle.crash_policy.specs.Keys as spec;

use crate::limits::MOST_NAME_BYTES;
use crate::policy_file::{Judge, Policy};

/// A level of a policy text that has keys.
#[derive(Clone, Copy, Debug, PartialEq, Eq)]
pub(crate) enum Level {
    /// The whole text.
    Top,
    /// One application.
    App,
    /// The policies of single kinds of events.
    Rules,
}

/// Returns the policy of a word.
#[tactic(auto, unfolding(crate::specs::Keys::policy_named))]
pub(crate) fn policy_named(word: &str) -> Option<Policy>
    ensures { result ≡ spec.policy_named word.now }
{
    match word {
        "absolute" => Some(Policy::Absolute),
        "equivalence" => Some(Policy::Equivalence),
        "none" => Some(Policy::None),
        _ => None,
    }
}

/// Returns the judge of a word.
#[tactic(auto, unfolding(crate::specs::Keys::judge_named))]
pub(crate) fn judge_named(word: &str) -> Option<Judge>
    ensures { result ≡ spec.judge_named word.now }
{
    match word {
        "all" => Some(Judge::All),
        "quota" => Some(Judge::Quota),
        "guard" => Some(Judge::Guard),
        _ => None,
    }
}

/// Tells whether the word names a kind of event.
#[tactic(auto, unfolding(crate::specs::Keys::is_event_name))]
pub(crate) fn is_event_name(word: &str) -> bool
    ensures { result ≡ spec.is_event_name word.now }
{
    matches!(
        word,
        "join" | "leave" | "packet_in" | "flow_removed" | "port_status" | "error"
    )
}

/// Tells whether the top of a policy may have the key.
#[tactic(auto, unfolding(crate::specs::Keys::is_top_key))]
fn is_top_key(key: &str) -> bool
    ensures { result ≡ spec.is_top_key key.now }
{
    matches!(key, "judge" | "quota" | "field" | "links" | "app")
}

/// Tells whether an application may have the key.
#[tactic(auto, unfolding(crate::specs::Keys::is_app_key))]
fn is_app_key(key: &str) -> bool
    ensures { result ≡ spec.is_app_key key.now }
{
    matches!(
        key,
        "name" | "command" | "policy" | "events" | "budget" | "rules"
    )
}

/// Tells whether the level may have the key.
pub(crate) fn is_known(level: Level, key: &str) -> bool
    ensures { result ≡ spec.is_known level key.now }
{
    match level {
        Level::Top => is_top_key(key),
        Level::App => is_app_key(key),
        Level::Rules => is_event_name(key),
    }
}

fn is_name_byte(byte: u8) -> bool
    ensures { result ≡ spec.is_name_byte byte }
{
    matches!(byte, b'a'..=b'z' | b'0'..=b'9' | b'_')
}

fn are_name_bytes(bytes: &[u8]) -> bool
    ensures { result ≡ list_all spec.is_name_byte bytes.now }
{
    bytes.iter().all(|byte| is_name_byte(*byte))
}

/// Tells whether an application may have the name.
pub(crate) fn is_name(text: &str) -> bool
    ensures { result ≡ spec.is_name text.now }
{
    1 <= text.len() && text.len() <= MOST_NAME_BYTES && are_name_bytes(text.as_bytes())
}

/// Returns the number, if it lies within the limits.
pub(crate) fn number_within(low: u32, high: u32, number: i64) -> Option<u32>
    ensures { result ≡ spec.number_within low high number }
{
    match u32::try_from(number) {
        Ok(number) if low <= number && number <= high => Some(number),
        _ => None,
    }
}
