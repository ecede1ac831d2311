//! Tests of the generator's databases: that of 20 persons is as the specification has it, and that of 62,001 rows goes through the commands, which a
//! plain comparison of every two rows or triples would not end in time.
#![tactic(auto)]

#[cfg(test)]
mod tests;
