//! Definitions and lemmas on what stands in a list, in which order, and at which place.
#![tactic(auto)]
