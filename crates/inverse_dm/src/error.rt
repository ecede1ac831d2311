use std::alloc::AllocError;
use std::convert::From;
use thiserror::Error;
use value_dm::AllocFailed;

/// Why a graph gave no tables. Triples are counted from 1.
#[derive(Clone, Copy, Debug, PartialEq, Eq, Error)]
pub enum InverseError {
    /// There are no triples.
    #[error("no tables")]
    NoTables,
    /// The triple of this number says nothing of a table.
    #[error("triple {0} says nothing of a table")]
    Unexplained(u64),
    /// The triple of this number gives a node a second value in a column.
    #[error("triple {0} gives a second value in a column")]
    TwoValues(u64),
    /// The triple of this number gives a node a second class.
    #[error("triple {0} gives a node a second table")]
    TwoTables(u64),
    /// The triple of this number is a row of a relation, and one of its nodes has no value in the column that the relation
    /// references.
    #[error("triple {0} has a node without a value of the key")]
    NoKeyValue(u64),
    /// There are more than 4,096 tables.
    #[error("more than 4096 tables")]
    TooManyTables,
    /// A table has more than 256 columns.
    #[error("a table of more than 256 columns")]
    TooManyColumns,
    /// A table has more than 4,194,304 rows.
    #[error("a table of more than 4194304 rows")]
    TooManyRows,
    /// There was no memory.
    #[error("out of memory")]
    Memory,
}

impl From<AllocError> for InverseError {
    ghost use Rattle.std.specs.Prelude.{◌≡◌};
    ghost use Rattle.inverse_dm.specs.declared.error.InverseError.TheVariants.{Memory};

    ghost from_gives = { λ _ error. error ≡ Memory };

    fn from(_refused: AllocError) -> InverseError {
        InverseError::Memory
    }
}

impl<T: Drop> From<AllocFailed<T>> for InverseError {
    ghost use Rattle.std.specs.Prelude.{◌≡◌};
    ghost use Rattle.inverse_dm.specs.declared.error.InverseError.TheVariants.{Memory};

    ghost from_gives = { λ _ error. error ≡ Memory };

    fn from(_refused: AllocFailed<T>) -> InverseError {
        InverseError::Memory
    }
}
