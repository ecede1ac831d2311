//! Rows of terms under variables.
#![tactic(auto)]

use names_dm::Term;
use value_dm::Sequence;

/// A row: a term for each variable of a header, in its order, or None where the variable is unbound.
pub type GridRow = Sequence<Option<Term>>;

/// Rows in order.
pub type Grid = Sequence<GridRow>;
