//! Tests of the small libraries: checkpoints, words of the command line, policies, packed lists, the cache of counters, shadow
//! tables. Tests alone.
#![tactic(auto)]

#[cfg(test)]
mod tests;
