//! A test of patterns over 1,200,000 triples, which a plain comparison of every two rows would not end in time.
#![tactic(auto)]

#[cfg(test)]
mod tests;
