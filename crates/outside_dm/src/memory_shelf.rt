ghost use Rattle.std.specs.Prelude.{◌≡◌, ◌+◌, Some, [], IsSomeAnd, OnOk, OnErr};
ghost use Rattle.std.specs.Option.{option_copied};
ghost use Rattle.std.specs.FinMap.{get};
ghost use Rattle.outside_dm.specs.Counts.{counted};
ghost use Rattle.outside_dm.specs.Shelves.{AppendsFile, LoadCounted, NamesFailure, OnlyWhereAbsent, OnlyWhereTooLong, WhereAbsent, WhereTooLong, LoadKeeps, StoreEnds, StoreKeeps, after_load, after_store};
ghost use Rattle.outside_dm.specs.Files.{files_of};
ghost use Rattle.outside_dm.specs.Failing.{shelf_calls, shelf_state, LoadsByList, StoresByList};

use crate::files::FileList;
use crate::shelf::{LONGEST, LoadError, Shelf, StoreError};
use std::alloc::Global;
use value_dm::Sequence;

/// Numbers of calls, counted from 1.
pub type Calls = Sequence<u64>;

/// A shelf in memory that fails at listed calls. A store that is refused changes nothing.
#[derive(Drop)]
pub struct MemoryShelf {
    files: FileList,
    alloc: Global,
    fail_loads: Calls,
    fail_stores: Calls,
    loads: u64,
    stores: u64,
    failed: String,
    load_faults: u64,
    store_faults: u64,
    absences: u64,
    overlongs: u64,
}

impl MemoryShelf {
    /// A shelf of these files, whose loads and stores with these numbers fail. Takes no memory.
    pub fn new(alloc: Global, files: FileList, fail_loads: Calls, fail_stores: Calls) -> MemoryShelf
        ensures state { ⟦<MemoryShelf as Shelf>⟧.state result
            ≡ record { files = Some (files_of files); failed = []; load_faults = 0; store_faults = 0; absences = 0; overlongs = 0 } }
        ensures calls { shelf_calls result ≡ record { fail_loads = fail_loads; fail_stores = fail_stores; loads = 0; stores = 0 } }
    {
        MemoryShelf {
            files,
            alloc,
            fail_loads,
            fail_stores,
            loads: 0,
            stores: 0,
            failed: String::new(alloc),
            load_faults: 0,
            store_faults: 0,
            absences: 0,
            overlongs: 0,
        }
    }

    /// The bytes under this name, or None where no file has it.
    pub fn content(&self, name: &str) -> Option<&[u8]>
        ensures { IsSomeAnd (⟦<MemoryShelf as Shelf>⟧.state self.now).files (λ files. option_copied result ≡ get files name.now) }
    {
        self.files.content(name)
    }
}

impl Shelf for MemoryShelf {
    ghost state = { shelf_state };

    fn load(&mut self, name: &str, into: &mut Vec<u8>) -> Result<(), LoadError>
        ensures appends { OnOk result (AppendsFile (shelf_state self.old) name.now into.old.items into.new.items) }
        ensures refused { OnErr result (into.new.items ≡ into.old.items) }
        ensures counted { LoadCounted (shelf_state self.old) (shelf_state self.new) result }
        ensures failed { NamesFailure (shelf_state self.old) (shelf_state self.new) name.now result }
        ensures only_where_absent { OnlyWhereAbsent (shelf_state self.old) name.now result }
        ensures only_where_too_long { OnlyWhereTooLong (shelf_state self.old) name.now result }
        ensures where_absent { WhereAbsent (shelf_state self.old) (shelf_state self.new) name.now result }
        ensures where_too_long { WhereTooLong (shelf_state self.old) (shelf_state self.new) name.now result }
        ensures kept { LoadKeeps (shelf_state self.old) (shelf_state self.new) }
        ensures state { shelf_state self.new ≡ after_load (shelf_state self.old) name.now result }
        ensures numbered { shelf_calls self.new ≡ record (shelf_calls self.old) { loads = counted (shelf_calls self.old).loads } }
        ensures by_list { LoadsByList (shelf_calls self.old) (shelf_state self.old) (shelf_state self.new) result }
    {
        self.loads = self.loads.saturating_add(1);
        if self.fail_loads.as_slice().contains(&self.loads) {
            self.failed = String::from_str(self.alloc, name)?;
            self.load_faults = self.load_faults.saturating_add(1);
            return Err(LoadError::Failed);
        }
        match self.files.content(name) {
            None => {
                self.absences = self.absences.saturating_add(1);
                Err(LoadError::Absent)
            }
            Some(bytes) => {
                if bytes.len() > LONGEST {
                    self.overlongs = self.overlongs.saturating_add(1);
                    return Err(LoadError::TooLong);
                }
                into.extend_from_slice(bytes)?;
                Ok(())
            }
        }
    }

    fn store(&mut self, name: &str, bytes: &[u8]) -> Result<(), StoreError>
        ensures ends { StoreEnds (shelf_state self.old) (shelf_state self.new) name.now bytes.now result }
        ensures kept { StoreKeeps (shelf_state self.old) (shelf_state self.new) }
        ensures state { shelf_state self.new ≡ after_store (shelf_state self.old) (shelf_state self.new).files result }
        ensures unchanged { OnErr result ((shelf_state self.new).files ≡ (shelf_state self.old).files) }
        ensures numbered { shelf_calls self.new ≡ record (shelf_calls self.old) { stores = counted (shelf_calls self.old).stores } }
        ensures by_list { StoresByList (shelf_calls self.old) (shelf_state self.old) (shelf_state self.new) result }
    {
        self.stores = self.stores.saturating_add(1);
        if self.fail_stores.as_slice().contains(&self.stores) {
            self.store_faults = self.store_faults.saturating_add(1);
            return Err(StoreError::Failed);
        }
        self.files.replace(name, bytes)?;
        Ok(())
    }
}
