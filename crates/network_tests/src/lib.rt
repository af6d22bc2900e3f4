//! Tests of `net_txn` over simulated worlds, in which each call wants memory in turn, and switches tell, leave and are lost. Tests alone.
#![tactic(auto)]

#[cfg(test)]
mod tests;
