//! What the devices over the host call, one call at a time: a reader, a writer and a folder. Each
//! tells which calls were made of it so far, and what they answered.

ghost use Rattle.std.specs.Prelude.{⊤};

use std::fs::Files;
use std::io::{Read, Write};
use std::{fs, io};

/// Something that bytes are read from.
pub trait Reader {
    ghost use Rattle.std.specs.Prelude.{ℕ, ◌<◌, List, [], ◌∷◌, length, Option};
    ghost use Rattle.std.specs.Io.{ReadsAtMost};
    ghost use Rattle.std.specs.Io.KnownBytes.{ReadConsumes};
    ghost use Rattle.outside_dm.specs.Calls.{ReadCall, Makes, counted_bytes};

    // These reads were made so far.
    ghost has_made: { Self → List ReadCall → Type 0 };

    // The bytes that it gives from here on, where they are known.
    ghost remaining: { Self → Option (List ℕ) };

    /// Reads once, into a buffer with room. Gives how many bytes came, 0 at the end.
    fn read_once(&mut self, buffer: &mut [u8]) -> io::Result<usize>
        requires { 0 < length buffer.old }
        ensures bound { ReadsAtMost result buffer.new }
        ensures bytes { ReadConsumes (remaining self.old) (remaining self.new) result buffer.new }
        ensures call { Makes has_made self.old self.new (counted_bytes buffer.new result ∷ []) };
}

/// Something that bytes are written to.
pub trait Writer {
    ghost use Rattle.std.specs.Prelude.{ℕ, ◌<◌, List, [], ◌∷◌, length, Option, Result};
    ghost use Rattle.std.specs.Io.{WritesAtMost};
    ghost use Rattle.std.specs.Io.KnownBytes.{Keeps, WriteAppends};
    ghost use Rattle.outside_dm.specs.Calls.{WriteCall, wrote, flushed, Makes, counted_bytes};

    // These calls were made so far.
    ghost has_made: { Self → List WriteCall → Type 0 };

    // The bytes that it holds, where they are known.
    ghost held: { Self → Option (List ℕ) };

    /// Writes once, of a piece that isn't empty. Gives how many bytes were taken.
    fn write_once(&mut self, piece: &[u8]) -> io::Result<usize>
        requires { 0 < length piece.now }
        ensures bound { WritesAtMost result piece.now }
        ensures bytes { WriteAppends (held self.old) (held self.new) result piece.now }
        ensures call { Makes has_made self.old self.new (wrote (counted_bytes piece.now result) ∷ []) };

    /// Flushes once.
    fn flush_once(&mut self) -> io::Result<()>
        ensures bytes { Keeps (held self.old) (held self.new) }
        ensures call { Makes has_made self.old self.new (flushed result ∷ []) };
}

/// Something that files are opened and made in.
pub trait Folder {
    ghost use Rattle.std.specs.Prelude.{List, [], ◌∷◌, IfOk};
    ghost use Rattle.outside_dm.specs.Calls.{FolderCall, opened, made_folder, created, Makes, outcome_of};

    type Reader: Reader + Drop;

    type Writer: Writer + Drop;

    // These calls were made so far.
    ghost has_made: { Self → List FolderCall → Type 0 };

    /// Opens a file to be read.
    fn open_file(&mut self, name: &str) -> io::Result<Self::Reader>
        ensures call { Makes has_made self.old self.new (opened name.now (outcome_of result) ∷ []) }
        ensures fresh { IfOk result (λ reader. Self.Reader.has_made reader []) };

    /// Makes a folder and those that it lies in, where they are missing.
    fn make_folder(&mut self, path: &str) -> io::Result<()>
        ensures call { Makes has_made self.old self.new (made_folder path.now (outcome_of result) ∷ []) };

    /// Makes a file, or empties it, to be written.
    fn create_file(&mut self, name: &str) -> io::Result<Self::Writer>
        ensures call { Makes has_made self.old self.new (created name.now (outcome_of result) ∷ []) }
        ensures fresh { IfOk result (λ writer. Self.Writer.has_made writer []) };
}

impl<F: Read> Reader for F {
    ghost has_made = { λ _ _. ⊤ };

    ghost remaining = { F.remaining };

    fn read_once(&mut self, buffer: &mut [u8]) -> io::Result<usize> {
        self.read(buffer)
    }
}

impl<W: Write> Writer for W {
    ghost has_made = { λ _ _. ⊤ };

    ghost held = { W.contents };

    fn write_once(&mut self, piece: &[u8]) -> io::Result<usize> {
        self.write(piece)
    }

    fn flush_once(&mut self) -> io::Result<()> {
        self.flush()
    }
}

impl<R: Files> Folder for R {
    type Reader = R::File;

    type Writer = R::File;

    ghost has_made = { λ _ _. ⊤ };

    fn open_file(&mut self, name: &str) -> io::Result<R::File> {
        fs::open(self, name)
    }

    fn make_folder(&mut self, path: &str) -> io::Result<()> {
        fs::create_dir_all(self, path)
    }

    fn create_file(&mut self, name: &str) -> io::Result<R::File> {
        fs::create(self, name)
    }
}
