//! The deadline of a flow entry, and what is left of its hard timeout.

ghost use Rattle.std.specs.Prelude.{◌≡◌, ◌≢◌, ◌↔◌, ◌<◌, ◌≤◌, IsNone};
ghost use Rattle.flow_timeouts.specs.Timeouts.{end_of, earlier_of, deadline_of, remaining_of};

/// The last moment, in seconds: the limit of every moment, our own choice.
pub const LAST_MOMENT: u64 = 4_294_967_295;

/// Why an entry goes (OpenFlow 1.0.0, 5.4.2 Flow Removed Message).
#[derive(Clone, Copy, Debug, PartialEq, Eq)]
pub enum Reason {
    /// It was not used for as long as its idle timeout.
    Idle,
    /// It stood for as long as its hard timeout.
    Hard,
}

fn end(start: u64, timeout: u16) -> Option<u64>
    requires { start ≤ LAST_MOMENT }
    ensures { result ≡ end_of start timeout }
{
    if timeout == 0 {
        None
    } else {
        Some(start + u64::from(timeout))
    }
}

/// Finds the moment at which an entry goes, and why: the earlier of the moment it was installed plus its hard
/// timeout and the moment it was used plus its idle timeout, all in seconds (OpenFlow 1.0.0, 3.3).
///
/// A timeout of 0 does not count; `None` where neither counts. At a tie it is the hard one.
/// Neither moment may be after [`LAST_MOMENT`].
#[tactic(auto, unfolding(crate::specs::Timeouts::deadline_of))]
pub fn deadline(installed: u64, used: u64, idle: u16, hard: u16) -> Option<(u64, Reason)>
    requires installed { installed ≤ LAST_MOMENT }
    requires used { used ≤ LAST_MOMENT }
    ensures none { IsNone result ↔ ((idle ≡ 0) × (hard ≡ 0)) }
    ensures value { result ≡ deadline_of installed used idle hard }
{
    match (end(installed, hard), end(used, idle)) {
        (None, None) => None,
        (None, Some(idle_end)) => Some((idle_end, Reason::Idle)),
        (Some(hard_end), None) => Some((hard_end, Reason::Hard)),
        (Some(hard_end), Some(idle_end)) => Some(earlier(hard_end, idle_end)),
    }
}

fn earlier(hard_end: u64, idle_end: u64) -> (u64, Reason)
    ensures { result ≡ earlier_of hard_end idle_end }
{
    if hard_end <= idle_end {
        (hard_end, Reason::Hard)
    } else {
        (idle_end, Reason::Idle)
    }
}

/// Tells what is left of a hard timeout, in seconds, for an entry of the given age, which has to be below it.
///
/// 0 for a hard timeout of 0, which does not count.
pub fn remaining(hard: u16, age: u64) -> u16
    requires { hard ≢ 0 → age < hard }
    ensures value { result ≡ remaining_of hard age }
    ensures counts { (result ≡ 0) ↔ (hard ≡ 0) }
{
    if hard == 0 { 0 } else { hard - age as u16 }
}
