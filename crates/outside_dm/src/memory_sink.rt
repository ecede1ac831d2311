ghost use Rattle.std.specs.Prelude.{◌≡◌, Some, [], take};
ghost use Rattle.outside_dm.specs.Counts.{counted};
ghost use Rattle.outside_dm.specs.Sinks.{Puts, SinkKeeps, CountsShortage, CountsPut};
ghost use Rattle.outside_dm.specs.Failing.{sink_calls, sink_state, kept_at, PutsByList};

use crate::sink::{PutError, Sink};
use std::alloc::{AllocError, Global};
use value_dm::{Sequence, TryCopy};

/// A put that fails: its number, counted from 1, and how many bytes of its piece it keeps.
#[derive(Debug, Clone, Copy, PartialEq, Eq, Drop)]
pub struct Cut {
    pub call: u64,
    pub kept: u64,
}

/// Puts that fail. Where two have one number, the first counts.
pub type Cuts = Sequence<Cut>;

impl TryCopy for Cut {
    fn copy(&self, _alloc: Global) -> Result<Cut, AllocError> {
        Ok(*self)
    }
}

/// A sink in memory that fails at listed puts. A put that fails keeps the first bytes of its
/// piece, and the whole piece where the cut keeps more.
#[derive(Drop)]
pub struct MemorySink {
    bytes: Vec<u8>,
    cuts: Cuts,
    puts: u64,
    faults: u64,
    shortages: u64,
}

impl MemorySink {
    /// An empty sink. Takes no memory.
    pub fn new(alloc: Global, fails: Cuts) -> MemorySink
        ensures state { ⟦<MemorySink as Sink>⟧.state result ≡ record { held = Some []; faults = 0; shortages = 0 } }
        ensures calls { sink_calls result ≡ record { cuts = fails; puts = 0 } }
    {
        MemorySink {
            bytes: Vec::new(alloc),
            cuts: fails,
            puts: 0,
            faults: 0,
            shortages: 0,
        }
    }

    /// The bytes that it holds.
    pub fn bytes(&self) -> &[u8]
        ensures { (⟦<MemorySink as Sink>⟧.state self.now).held ≡ Some result.now }
    {
        self.bytes.as_slice()
    }
}

impl Sink for MemorySink {
    ghost state = { sink_state };

    fn put(&mut self, piece: &[u8]) -> Result<(), PutError>
        ensures puts { Puts piece.now (sink_state self.old) (sink_state self.new) result }
        ensures shortage { CountsShortage (sink_state self.old) (sink_state self.new) result }
        ensures kept { SinkKeeps (sink_state self.old) (sink_state self.new) }
        ensures counts { CountsPut (sink_state self.old) (sink_state self.new) result }
        ensures numbered { sink_calls self.new ≡ record (sink_calls self.old) { puts = counted (sink_calls self.old).puts } }
        ensures by_list { PutsByList (sink_calls self.old) piece.now (sink_state self.old) (sink_state self.new) result }
    {
        self.puts = self.puts.saturating_add(1);
        let cut = first_cut(self.cuts.as_slice(), self.puts);
        let kept = match cut {
            Some(kept) => front(piece, kept),
            None => piece,
        };
        if let Err(_) = self.bytes.extend_from_slice(kept) {
            self.shortages = self.shortages.saturating_add(1);
            return Err(PutError::Memory);
        }
        match cut {
            Some(_) => {
                self.faults = self.faults.saturating_add(1);
                Err(PutError::Failed)
            }
            None => Ok(()),
        }
    }
}

/// How much of its piece the put with this number keeps, where it fails.
fn first_cut(cuts: &[Cut], call: u64) -> Option<u64>
    ensures { result ≡ kept_at cuts.now call }
{
    for cut in cuts {
        if cut.call == call {
            return Some(cut.kept);
        }
    }
    None
}

/// The first bytes of the piece, at most so many.
fn front(piece: &[u8], kept: u64) -> &[u8]
    ensures { result.now ≡ take kept piece.now }
{
    if kept < piece.len() as u64 {
        &piece[..kept as usize]
    } else {
        piece
    }
}
