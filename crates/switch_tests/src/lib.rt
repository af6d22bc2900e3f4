//! Calls of the flow table and of the simulated switch, with answers by OpenFlow 1.0.0 that were written out by hand. Tests alone.
#![tactic(auto)]

#[cfg(test)]
mod tests;
