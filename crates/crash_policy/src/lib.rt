//! What an operator says of applications and of their crashes: the policy text, and the events that an
//! application is given in place of one that it failed at.
#![tactic(auto)]

mod app_keys;
mod asking;
mod document;
mod guard_keys;
mod limits;
mod link_text;
mod members;
mod policy_fault;
mod policy_file;
mod reading;
mod replacing;
mod top_keys;
mod words;

pub use asking::{listens, rule};
pub use guard_rule::{GuardField, GuardRule, Link};
pub use limits::{
    DEFAULT_BUDGET, MOST_APPS, MOST_BUDGET, MOST_COMMAND_WORDS, MOST_LINKS, MOST_NAME_BYTES,
    MOST_PORT,
};
pub use policy_fault::PolicyFault;
pub use policy_file::{AppRule, Policy, PolicyFile};
pub use reading::read_policy;
pub use replacing::replacements;
