//! Tests of `value_dm`: of what no command of the program shows.
#![tactic(auto)]

#[cfg(test)]
mod tests;
