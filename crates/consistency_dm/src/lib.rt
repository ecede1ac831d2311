//! Whether triples contradict themselves: whether some interpretation satisfies them all, and if none does, which triple shows it.
#![tactic(auto)]

mod conflict;
mod range;
mod verdict;

pub use conflict::consistent;
pub use verdict::{ConflictKind, Verdict};
