ghost use Rattle.std.specs.Prelude.{◌≡◌};
ghost use Rattle.outside_dm.specs.Sinks.{Puts, SinkKeeps, CountsShortage, CountsPut};
ghost use Rattle.outside_dm.specs.Transfers.{PutsBy};
ghost use Rattle.outside_dm.specs.Streams.{stream_state, writer_of};

use crate::host::Writer;
use crate::sink::{PutError, Sink};
use crate::transfers::pass;
use std::io::Write;

/// A sink over a writer, which flushes after each piece. It holds what the writer holds, where the
/// writer tells it. A write that takes nothing, and a write or a flush that fails other than by
/// want of memory, count as faults; a write or a flush that fails by want of memory counts as a
/// shortage.
#[derive(Drop)]
pub struct StreamSink<W> {
    writer: W,
    faults: u64,
    shortages: u64,
}

impl<W: Write + Drop> StreamSink<W> {
    /// A sink over this writer. Takes no memory.
    pub fn new(writer: W) -> StreamSink<W>
        ensures state { ⟦<StreamSink<W> as Sink>⟧.state result ≡ record { held = W.contents writer; faults = 0; shortages = 0 } }
        ensures writer { writer_of result ≡ writer }
    {
        StreamSink {
            writer,
            faults: 0,
            shortages: 0,
        }
    }
}

impl<W: Writer + Drop> Sink for StreamSink<W> {
    ghost state = { stream_state W.held };

    fn put(&mut self, piece: &[u8]) -> Result<(), PutError>
        ensures puts { Puts piece.now (stream_state W.held self.old) (stream_state W.held self.new) result }
        ensures shortage { CountsShortage (stream_state W.held self.old) (stream_state W.held self.new) result }
        ensures kept { SinkKeeps (stream_state W.held self.old) (stream_state W.held self.new) }
        ensures counts { CountsPut (stream_state W.held self.old) (stream_state W.held self.new) result }

        // What the writer answered decides, also where it doesn't tell what it holds.
        ensures calls { PutsBy W.has_made (writer_of self.old) (writer_of self.new) piece.now result }
    {
        match pass(&mut self.writer, piece) {
            Ok(()) => Ok(()),
            Err(PutError::Failed) => {
                self.faults = self.faults.saturating_add(1);
                Err(PutError::Failed)
            }
            Err(PutError::Memory) => {
                self.shortages = self.shortages.saturating_add(1);
                Err(PutError::Memory)
            }
        }
    }
}
