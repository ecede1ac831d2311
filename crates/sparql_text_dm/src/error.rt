use std::alloc::AllocError;
use thiserror::Error;
use value_dm::AllocFailed;

/// Why a text gave no pattern. Places count bytes from 1.
#[derive(Clone, Copy, Debug, PartialEq, Eq, Error)]
pub enum SparqlError {
    /// The first text that is no token or token that no query goes on with, or the byte behind the end, where the query isn't
    /// whole.
    #[error("no pattern from byte {0} on")]
    BadPattern(u64),
    /// An opening brace or parenthesis inside 2,048 open ones.
    #[error("nested too deep at byte {0}")]
    TooNested(u64),
    /// There was no memory.
    #[error("out of memory")]
    Memory,
}

impl From<AllocError> for SparqlError {
    ghost use Rattle.std.specs.Prelude.{◌≡◌};
    ghost use Rattle.sparql_text_dm.specs.declared.error.SparqlError.TheVariants.{Memory};

    ghost from_gives = { λ _ error. error ≡ Memory };

    fn from(_error: AllocError) -> SparqlError {
        SparqlError::Memory
    }
}
