ghost use Rattle.std.specs.Prelude.{◌≡◌, ◌≤◌, ◌++◌, List, ℕ, OnOk, OnErr, drop, length};
ghost use Rattle.std.specs.IoError.{error_kind};
ghost use Rattle.std.specs.Io.KnownBytes.{Appends};
ghost use Rattle.outside_dm.specs.Sinks.{AppendsPrefix};
ghost use Rattle.outside_dm.specs.Transfers.{PutsBy, PutRefusal, Reads, ReadRefusal, ReadsBy};

use crate::host::{Reader, Writer};
use crate::shelf::{LONGEST, LoadError};
use crate::sink::PutError;
use std::io::{Error, ErrorKind};

/// Why a put is refused at this error of its writer.
fn put_refusal(error: &Error) -> PutError
    ensures { PutRefusal (error_kind error.now) result }
{
    match error.kind() {
        ErrorKind::OutOfMemory => PutError::Memory,
        _ => PutError::Failed,
    }
}

/// What stands behind the first bytes of a piece.
fn behind(piece: &[u8], taken: usize) -> &[u8]
    requires { taken ≤ length piece.now }
    ensures { result.now ≡ drop taken piece.now }
{
    &piece[taken..]
}

/// Writes the piece turn by turn and flushes, or writes a prefix of the piece. Every turn but the
/// last takes at least one byte.
pub(crate) fn pass<W: Writer>(writer: &mut W, piece: &[u8]) -> Result<(), PutError>
    ensures ok { OnOk result (Appends (W.held writer.old) (W.held writer.new) piece.now) }
    ensures err { OnErr result (AppendsPrefix (W.held writer.old) (W.held writer.new) piece.now) }
    ensures calls { PutsBy W.has_made writer.old writer.new piece.now result }
{
    let mut taken = 0;
    while taken < piece.len() {
        match writer.write_once(behind(piece, taken)) {
            Ok(0) => return Err(PutError::Failed),
            Ok(count) => taken += count,
            Err(error) => return Err(put_refusal(&error)),
        }
    }
    match writer.flush_once() {
        Ok(()) => Ok(()),
        Err(error) => Err(put_refusal(&error)),
    }
}

/// Why a load is refused at this error of its reader.
fn read_refusal(error: &Error) -> LoadError
    ensures { ReadRefusal (error_kind error.now) result }
{
    match error.kind() {
        ErrorKind::OutOfMemory => LoadError::Memory,
        _ => LoadError::Failed,
    }
}

/// Appends what the reader gives turn by turn, up to its end, to the first turn that fails, or to
/// the first after which it gave more than `LONGEST` bytes. Every turn but the last gives at least
/// one byte.
fn read_chunks<F: Reader>(reader: &mut F, into: &mut Vec<u8>) -> Result<(), LoadError>
    ensures { (bytes more : List ℕ) × ReadsBy F.has_made reader.old reader.new bytes result
        × (into.new.items ≡ into.old.items ++ more) × OnOk result (more ≡ bytes) }
{
    let mut chunk = [0u8; 8192];
    let mut taken = 0;
    while taken <= LONGEST {
        match reader.read_once(&mut chunk) {
            Ok(0) => return Ok(()),
            Ok(count) => {
                taken += count;
                into.extend_from_slice(&chunk[..count])?;
            }
            Err(error) => return Err(read_refusal(&error)),
        }
    }
    Err(LoadError::TooLong)
}

/// Appends all that the reader gives, at most `LONGEST` bytes. A refusal leaves `into` as it was,
/// and is never `Absent`.
pub fn read_whole<F: Reader>(reader: &mut F, into: &mut Vec<u8>) -> Result<(), LoadError>
    ensures { Reads F.has_made reader.old reader.new into.old.items into.new.items result }
{
    let start = into.len();
    let outcome = read_chunks(reader, into);
    if outcome.is_err() {
        into.truncate(start);
    }
    outcome
}
