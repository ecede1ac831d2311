use std::alloc::AllocError;
use value_dm::AllocFailed;

/// Why a reader of tokens gave no value.
#[derive(Debug, Drop)]
pub enum ReadError<'a, T> {
    /// Memory ran out.
    Memory,
    /// The tokens from the first fault on, and whether a marked part stands there.
    At(&'a [T], bool),
}

impl<T> From<AllocError> for ReadError<'_, T> {
    ghost use Rattle.std.specs.Prelude.{◌≡◌};
    ghost use Rattle.grammar_dm.specs.declared.read_error.ReadError.TheVariants.{Memory};

    ghost from_gives = { λ _ e. e ≡ Memory };

    fn from(_: AllocError) -> Self {
        ReadError::Memory
    }
}

impl<X: Drop, T> From<AllocFailed<X>> for ReadError<'_, T> {
    ghost use Rattle.std.specs.Prelude.{◌≡◌};
    ghost use Rattle.grammar_dm.specs.declared.read_error.ReadError.TheVariants.{Memory};

    ghost from_gives = { λ _ e. e ≡ Memory };

    fn from(_refused: AllocFailed<X>) -> Self {
        ReadError::Memory
    }
}
