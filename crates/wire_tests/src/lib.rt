//! Calls of the crates of the wire: vectors from outside, and each call that wants memory once. Tests alone.
#![tactic(auto)]

#[cfg(test)]
mod tests;
