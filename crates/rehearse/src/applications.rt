//! The applications of a policy.

ghost use Rattle.std.specs.Prelude.{◌≡◌, ◌≤◌, length, IfOk};

use crate::stop::Stop;
use crash_policy::{AppRule, read_policy};
use std::alloc::Global;

/// Reads the applications of a policy, in their order. Each has a command that starts it.
pub(crate) fn read_apps(alloc: Global, text: &[u8]) -> Result<Vec<AppRule>, Stop>
    ensures { IfOk result (λ apps. length apps.items ≤ 32) }
{
    let policy = read_policy(alloc, text)?;
    if policy.quota.is_some() || policy.guard.is_some() {
        return Err(Stop::PolicyLater);
    }
    if policy.apps.iter().any(|app| app.command.is_empty()) {
        return Err(Stop::NoCommand);
    }
    Ok(policy.apps)
}
