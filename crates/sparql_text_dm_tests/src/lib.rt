//! Tests that copies of patterns, and of what their solutions are made of, are the same.
#![tactic(auto)]

#[cfg(test)]
mod tests;
