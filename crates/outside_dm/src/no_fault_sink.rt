ghost use Rattle.std.specs.Prelude.{◌≡◌, Some, []};

use crate::sink::{PutError, Sink};
use std::alloc::Global;

/// A sink that keeps all bytes and never fails.
#[derive(Drop)]
pub struct NoFaultSink {
    bytes: Vec<u8>,
    shortages: u64,
}

impl NoFaultSink {
    /// An empty sink. Takes no memory.
    pub fn new(alloc: Global) -> NoFaultSink
        ensures { ⟦<NoFaultSink as Sink>⟧.state result ≡ record { held = Some []; faults = 0; shortages = 0 } }
    {
        NoFaultSink {
            bytes: Vec::new(alloc),
            shortages: 0,
        }
    }

    /// The bytes that it holds.
    pub fn bytes(&self) -> &[u8]
        ensures { (⟦<NoFaultSink as Sink>⟧.state self.now).held ≡ Some result.now }
    {
        self.bytes.as_slice()
    }
}

impl Sink for NoFaultSink {
    ghost state = { λ sink. record { held = Some sink.bytes.items; faults = 0; shortages = sink.shortages } };

    fn put(&mut self, piece: &[u8]) -> Result<(), PutError> {
        match self.bytes.extend_from_slice(piece) {
            Ok(()) => Ok(()),
            Err(_) => {
                self.shortages = self.shortages.saturating_add(1);
                Err(PutError::Memory)
            }
        }
    }
}
