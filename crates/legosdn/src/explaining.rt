//! What is wrong with an input, in words for an operator, where the line of its refusal does not say it.

use crate::input::{MOST_INPUT, cut};
use crash_policy::{AppRule, PolicyFile, read_policy};
use std::alloc::{AllocError, Global};

/// Says what is wrong with the policy of an input that was refused: where it is no TOML, or which application names no program.
/// `None` where the line says all.
pub fn explain(alloc: Global, input: &[u8], is_run: bool) -> Result<Option<String>, AllocError> {
    if is_run {
        return explain_policy(alloc, input, true);
    }
    // A larger one was refused for its size, which its line says.
    if input.len() > MOST_INPUT {
        return Ok(None);
    }
    match cut(input) {
        Ok(parts) => explain_policy(alloc, parts.policy, false),
        Err(_) => Ok(None),
    }
}

fn explain_policy(
    alloc: Global,
    policy: &[u8],
    is_run: bool,
) -> Result<Option<String>, AllocError> {
    if let Err(error) = toml::table_from_slice(alloc, policy) {
        return Ok(Some(format!(in alloc; "policy: {error}")?));
    }
    match read_policy(alloc, policy) {
        Ok(file) => explain_file(alloc, &file, is_run),
        Err(_) => Ok(None),
    }
}

/// Says what a policy lacks for `run`.
fn explain_file(
    alloc: Global,
    file: &PolicyFile,
    is_run: bool,
) -> Result<Option<String>, AllocError> {
    for app in &file.apps {
        if is_run && !has_program(app) {
            let name = app.name.as_str();
            return Ok(Some(format!(in alloc;
                "policy: application {name} has no program in its command\n"
            )?));
        }
    }
    Ok(None)
}

/// Tells whether a command names a program.
fn has_program(app: &AppRule) -> bool {
    match app.command.first() {
        Some(program) => !program.is_empty(),
        None => false,
    }
}
