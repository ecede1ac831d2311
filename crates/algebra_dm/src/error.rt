use std::alloc::AllocError;
use std::convert::From;
use thiserror::Error;

/// Why a query is refused. `BadQuery` and `TooDeep` are faults of a query's text, with the place of a byte, counted from 1;
/// the others are causes at a node of a query.
#[derive(Clone, Copy, Debug, PartialEq, Eq, Error)]
pub enum QueryError {
    #[error("no query at byte {0}")]
    BadQuery(u64),
    #[error("too many open parentheses at byte {0}")]
    TooDeep(u64),
    #[error("there is no such table")]
    NoSuchTable,
    #[error("there is no such column")]
    NoSuchColumn,
    #[error("the name is taken")]
    NameTaken,
    #[error("the parts have different columns")]
    NotSameColumns,
    #[error("a projection to no columns")]
    EmptyProject,
    #[error("more than 1024 attributes")]
    TooWide,
    #[error("out of memory")]
    Memory,
}

impl From<AllocError> for QueryError {
    ghost use Rattle.std.specs.Prelude.{◌≡◌};
    ghost use Rattle.algebra_dm.specs.declared.error.QueryError.TheVariants.{Memory};

    ghost from_gives = { λ _ fault. fault ≡ Memory };

    fn from(_refused: AllocError) -> QueryError {
        QueryError::Memory
    }
}
