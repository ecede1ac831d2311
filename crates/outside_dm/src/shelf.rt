ghost use Rattle.std.specs.Prelude.{◌≡◌, OnOk, OnErr};
ghost use Rattle.outside_dm.specs.declared.shelf.LoadError.TheVariants as load_error;
ghost use Rattle.outside_dm.specs.declared.shelf.StoreError.TheVariants as store_error;

use std::alloc::AllocError;
use std::convert::From;
use thiserror::Error;

/// The length of the longest file that a load takes, in bytes.
pub const LONGEST: usize = 268_435_456;

/// Why a load was refused.
#[derive(Debug, Clone, Copy, PartialEq, Eq, Drop, Error)]
pub enum LoadError {
    /// There is no file of this name.
    #[error("no such file")]
    Absent,

    /// The shelf failed.
    #[error("the shelf failed")]
    Failed,

    /// The file has more than `LONGEST` bytes.
    #[error("the file is too long")]
    TooLong,

    /// Want of memory.
    #[error("out of memory")]
    Memory,
}

/// Why a store was refused.
#[derive(Debug, Clone, Copy, PartialEq, Eq, Drop, Error)]
pub enum StoreError {
    /// The shelf failed.
    #[error("the shelf failed")]
    Failed,

    /// Want of memory.
    #[error("out of memory")]
    Memory,
}

impl From<AllocError> for LoadError {
    ghost from_gives = { λ _ error. error ≡ load_error.Memory };

    fn from(_refused: AllocError) -> LoadError {
        LoadError::Memory
    }
}

impl From<AllocError> for StoreError {
    ghost from_gives = { λ _ error. error ≡ store_error.Memory };

    fn from(_refused: AllocError) -> StoreError {
        StoreError::Memory
    }
}

/// A device that keeps files by name.
pub trait Shelf {
    ghost use Rattle.outside_dm.specs.Shelves.{ShelfState, AppendsFile, LoadCounted, NamesFailure, OnlyWhereAbsent, OnlyWhereTooLong, WhereAbsent, WhereTooLong, LoadKeeps, StoreEnds, StoreKeeps};

    ghost state: { Self → ShelfState };

    /// Appends the bytes of the file to `into`, at most `LONGEST` of them. A refusal leaves `into`
    /// as it was.
    fn load(&mut self, name: &str, into: &mut Vec<u8>) -> Result<(), LoadError>
        ensures appends { OnOk result (AppendsFile (state self.old) name.now into.old.items into.new.items) }
        ensures refused { OnErr result (into.new.items ≡ into.old.items) }
        ensures counted { LoadCounted (state self.old) (state self.new) result }
        ensures failed { NamesFailure (state self.old) (state self.new) name.now result }
        ensures only_where_absent { OnlyWhereAbsent (state self.old) name.now result }
        ensures only_where_too_long { OnlyWhereTooLong (state self.old) name.now result }
        ensures where_absent { WhereAbsent (state self.old) (state self.new) name.now result }
        ensures where_too_long { WhereTooLong (state self.old) (state self.new) name.now result }
        ensures kept { LoadKeeps (state self.old) (state self.new) };

    /// Replaces the bytes of the file, or makes it. A refusal leaves open what this name holds,
    /// and every other name as it was.
    fn store(&mut self, name: &str, bytes: &[u8]) -> Result<(), StoreError>
        ensures ends { StoreEnds (state self.old) (state self.new) name.now bytes.now result }
        ensures kept { StoreKeeps (state self.old) (state self.new) };
}
