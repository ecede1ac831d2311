ghost use Rattle.std.specs.Prelude.{◌≡◌};
ghost use Rattle.outside_dm.specs.declared.sink.PutError.TheVariants.{Memory};

use std::alloc::AllocError;
use std::convert::From;
use thiserror::Error;

/// Why a put was refused.
#[derive(Debug, Clone, Copy, PartialEq, Eq, Drop, Error)]
pub enum PutError {
    /// The sink failed.
    #[error("the sink failed")]
    Failed,

    /// Want of memory.
    #[error("out of memory")]
    Memory,
}

impl From<AllocError> for PutError {
    ghost from_gives = { λ _ error. error ≡ Memory };

    fn from(_refused: AllocError) -> PutError {
        PutError::Memory
    }
}

/// A device that takes bytes in order.
pub trait Sink {
    ghost use Rattle.outside_dm.specs.Sinks.{SinkState, Puts, SinkKeeps, CountsShortage};

    ghost state: { Self → SinkState };

    /// Appends the piece, or at a refusal a prefix of it.
    fn put(&mut self, piece: &[u8]) -> Result<(), PutError>
        ensures puts { Puts piece.now (state self.old) (state self.new) result }
        ensures shortage { CountsShortage (state self.old) (state self.new) result }
        ensures kept { SinkKeeps (state self.old) (state self.new) };
}
