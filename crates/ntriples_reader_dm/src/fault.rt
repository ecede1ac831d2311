use std::alloc::AllocError;
use std::convert::From;
use thiserror::Error;
use value_dm::AllocFailed;

/// Why a part of a line gave no value.
#[derive(Debug, Drop)]
pub(crate) enum LineFault {
    /// Memory ran out.
    Memory,
    /// The part isn't there.
    Bad,
}

impl From<AllocError> for LineFault {
    ghost use Rattle.std.specs.Prelude.{◌≡◌};
    ghost use Rattle.ntriples_reader_dm.specs.declared.fault.LineFault.TheVariants.{Memory};

    ghost from_gives = { λ _ error. error ≡ Memory };

    fn from(_error: AllocError) -> LineFault {
        LineFault::Memory
    }
}

/// Why a document has no triples. Lines are counted from 1.
#[derive(Clone, Copy, Debug, PartialEq, Eq, Error)]
pub enum GraphError {
    /// The line of this number is the first that isn't in the grammar.
    #[error("no triple, comment or empty line in line {0}")]
    BadLine(u64),
    /// There are more than 16,777,216 triples before the first such line.
    #[error("too many triples")]
    TooManyTriples,
    /// There was no memory.
    #[error("out of memory")]
    Memory,
}

impl<T: Drop> From<AllocFailed<T>> for GraphError {
    ghost use Rattle.std.specs.Prelude.{◌≡◌};
    ghost use Rattle.ntriples_reader_dm.specs.declared.fault.GraphError.TheVariants.{Memory};

    ghost from_gives = { λ _ error. error ≡ Memory };

    fn from(_refused: AllocFailed<T>) -> GraphError {
        GraphError::Memory
    }
}
