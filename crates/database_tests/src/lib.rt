//! Tests over databases: of calls that no command of the program reaches.
#![tactic(auto)]

#[cfg(test)]
mod bases;
#[cfg(test)]
mod batches;
#[cfg(test)]
mod copies;
#[cfg(test)]
mod removals;
