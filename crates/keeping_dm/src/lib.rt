//! When a pattern over a graph keeps the answers of a query over tables, and that each operator does. Lemmas alone.
#![tactic(auto)]
