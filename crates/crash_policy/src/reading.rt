//! The policy text.

ghost use Rattle.std.specs.Prelude.{◌≡◌, IfOk};
ghost use Rattle.toml.specs.View.{table_view};
ghost use Rattle.crash_policy.specs.Policies.{policy_value, default_policy};
ghost use Rattle.crash_policy.specs.Faults.{Gives};
ghost use Rattle.crash_policy.specs.Order.{document_of, policy_of};
ghost use Rattle.crash_policy.specs.laws.BoundLaws.{IsSized};

use crate::document::file;
use crate::limits::DEFAULT_BUDGET;
use crate::policy_fault::PolicyFault;
use crate::policy_file::{AppRule, Policy, PolicyFile};
use std::alloc::{AllocError, Global};
use toml::Table;

/// Returns the policy of one application `app` with all defaults.
#[tactic(auto, unfolding(crate::specs::Policies::default_app))]
fn default_file(alloc: Global) -> Result<PolicyFile, AllocError>
    ensures { IfOk result (λ f. policy_value f ≡ default_policy) }
{
    let mut apps = Vec::with_capacity(alloc, 1)?;
    apps.push(AppRule {
        name: String::from_str(alloc, "app")?,
        command: Vec::new(alloc),
        policy: Policy::Absolute,
        rules: [Policy::Absolute; 6],
        events: [true; 6],
        budget: DEFAULT_BUDGET,
    })?;
    Ok(PolicyFile {
        quota: None,
        guard: None,
        apps,
    })
}

/// Reads the document that the bytes are.
fn document(alloc: Global, text: &[u8]) -> Result<Table, PolicyFault>
    ensures { Gives table_view result (document_of text.now) }
{
    match toml::table_from_slice(alloc, text) {
        Ok(table) => Ok(table),
        Err(error) if error.is_memory() => Err(PolicyFault::NoMemory),
        Err(_) => Err(PolicyFault::Text),
    }
}

#[tactic(auto, unfolding(crate::specs::Order::policy_of))]
fn policy(alloc: Global, text: &[u8]) -> Result<PolicyFile, PolicyFault>
    ensures { Gives policy_value result (policy_of text.now) }
{
    if text.is_empty() {
        return Ok(default_file(alloc)?);
    }
    let document = document(alloc, text)?;
    file(alloc, &document)
}

/// Reads the policy that a text says, or the first thing that is wrong with it. A text of no bytes stands for
/// one application `app` with all defaults.
pub fn read_policy(alloc: Global, text: &[u8]) -> Result<PolicyFile, PolicyFault>
    // The value or the first fault, unless memory runs out.
    ensures exact { Gives policy_value result (policy_of text.now) }
    // 1 to 32 applications.
    ensures sized { IfOk result (λ file. IsSized (policy_value file)) }
{
    policy(alloc, text)
}
