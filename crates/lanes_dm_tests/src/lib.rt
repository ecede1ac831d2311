//! Tests of `lanes_dm`, in a crate of their own so that its proofs are checked once.
#![tactic(auto)]

#[cfg(test)]
mod tests;
