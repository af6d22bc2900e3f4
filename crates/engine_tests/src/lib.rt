//! Tests of the engine over simulated worlds and sinks that fail, where the world writes down its acts. Tests alone.
#![tactic(auto)]

#[cfg(test)]
mod tests;
