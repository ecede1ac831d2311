use std::alloc::AllocError;
use std::convert::From;
use thiserror::Error;

/// Why a field is no cell.
#[derive(Debug, Drop, Error)]
pub enum ValueError {
    /// The field is neither NULL nor a spelling of the kind.
    #[error("no value of the kind")]
    BadValue,
    /// There was no memory.
    #[error("out of memory")]
    Memory,
}

/// Why a text is no value.
#[derive(Debug, Drop, Error)]
pub enum LexicalError {
    /// The text is no canonical form of the kind.
    #[error("no canonical form of the kind")]
    NotCanonical,
    /// There was no memory.
    #[error("out of memory")]
    Memory,
}

impl From<AllocError> for ValueError {
    ghost use Rattle.std.specs.Prelude.{◌≡◌};
    ghost use Rattle.value_dm.specs.declared.errors.ValueError.TheVariants.{Memory};

    ghost from_gives = { λ _ error. error ≡ Memory };

    fn from(_error: AllocError) -> ValueError {
        ValueError::Memory
    }
}

impl From<AllocError> for LexicalError {
    ghost use Rattle.std.specs.Prelude.{◌≡◌};
    ghost use Rattle.value_dm.specs.declared.errors.LexicalError.TheVariants.{Memory};

    ghost from_gives = { λ _ error. error ≡ Memory };

    fn from(_error: AllocError) -> LexicalError {
        LexicalError::Memory
    }
}
