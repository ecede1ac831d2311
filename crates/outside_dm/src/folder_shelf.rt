ghost use Rattle.std.specs.Prelude.{◌≡◌, [], None, List, ℕ, OnOk, OnErr, IsErrAnd, string_bytes};
ghost use Rattle.std.specs.Option.{option_copied};
ghost use Rattle.std.specs.IoError.{error_kind};
ghost use Rattle.std.specs.Path.{path_parent};
ghost use Rattle.outside_dm.specs.Shelves.{AppendsFile, LoadCounted, NamesFailure, OnlyWhereAbsent, OnlyWhereTooLong, WhereAbsent, WhereTooLong, LoadKeeps, StoreEnds, StoreKeeps, after_load, after_store};
ghost use Rattle.outside_dm.specs.Folders.{host_of, folder_state, OpenRefusal, StoreRefusal, LoadsBy, StoresBy, CreatesBehind, store_result};

use crate::host::Folder;
use crate::shelf::{LoadError, Shelf, StoreError};
use crate::sink::PutError;
use crate::transfers::{pass, read_whole};
use std::alloc::Global;
use std::fs::Files;
use std::io::{Error, ErrorKind};
use std::path::Path;

/// A shelf over the files of the host, through the runtime that it keeps. A name is a path. It
/// doesn't tell what the files hold.
///
/// A load answers `Absent` where the system says that there is no such entry, and `Failed` at any
/// other error of the system but want of memory.
#[derive(Drop)]
pub struct FolderShelf<R> {
    rt: R,
    alloc: Global,
    failed: String,
    load_faults: u64,
    store_faults: u64,
    absences: u64,
    overlongs: u64,
}

impl<R: Files + Drop> FolderShelf<R> {
    /// A shelf over the files of this runtime. Takes no memory.
    pub fn new(rt: R, alloc: Global) -> FolderShelf<R>
        ensures { ⟦<FolderShelf<R> as Shelf>⟧.state result
            ≡ record { files = None; failed = []; load_faults = 0; store_faults = 0; absences = 0; overlongs = 0 } }
    {
        FolderShelf {
            rt,
            alloc,
            failed: String::new(alloc),
            load_faults: 0,
            store_faults: 0,
            absences: 0,
            overlongs: 0,
        }
    }
}

impl<R: Folder + Drop> Shelf for FolderShelf<R> {
    ghost state = { folder_state };

    fn load(&mut self, name: &str, into: &mut Vec<u8>) -> Result<(), LoadError>
        ensures appends { OnOk result (AppendsFile (folder_state self.old) name.now into.old.items into.new.items) }
        ensures refused { OnErr result (into.new.items ≡ into.old.items) }
        ensures counted { LoadCounted (folder_state self.old) (folder_state self.new) result }
        ensures failed { NamesFailure (folder_state self.old) (folder_state self.new) name.now result }
        ensures only_where_absent { OnlyWhereAbsent (folder_state self.old) name.now result }
        ensures only_where_too_long { OnlyWhereTooLong (folder_state self.old) name.now result }
        ensures where_absent { WhereAbsent (folder_state self.old) (folder_state self.new) name.now result }
        ensures where_too_long { WhereTooLong (folder_state self.old) (folder_state self.new) name.now result }
        ensures kept { LoadKeeps (folder_state self.old) (folder_state self.new) }
        ensures state { folder_state self.new ≡ after_load (folder_state self.old) name.now result }

        // What the folder and its reader answered decides.
        ensures calls { LoadsBy R.has_made R.Reader.has_made (host_of self.old) (host_of self.new) name.now into.old.items into.new.items result }
    {
        let kept = String::from_str(self.alloc, name)?;
        match read_file(&mut self.rt, name, into) {
            Ok(()) => Ok(()),
            Err(LoadError::Absent) => {
                self.absences = self.absences.saturating_add(1);
                Err(LoadError::Absent)
            }
            Err(LoadError::Failed) => {
                self.failed = kept;
                self.load_faults = self.load_faults.saturating_add(1);
                Err(LoadError::Failed)
            }
            Err(LoadError::TooLong) => {
                self.overlongs = self.overlongs.saturating_add(1);
                Err(LoadError::TooLong)
            }
            Err(LoadError::Memory) => Err(LoadError::Memory),
        }
    }

    fn store(&mut self, name: &str, bytes: &[u8]) -> Result<(), StoreError>
        ensures ends { StoreEnds (folder_state self.old) (folder_state self.new) name.now bytes.now result }
        ensures kept { StoreKeeps (folder_state self.old) (folder_state self.new) }
        ensures state { folder_state self.new ≡ after_store (folder_state self.old) (folder_state self.new).files result }

        // What the folder and its writer answered decides.
        ensures calls { StoresBy R.has_made R.Writer.has_made (host_of self.old) (host_of self.new) name.now bytes.now result }
    {
        match write_file(&mut self.rt, name, bytes) {
            Ok(()) => Ok(()),
            Err(StoreError::Failed) => {
                self.store_faults = self.store_faults.saturating_add(1);
                Err(StoreError::Failed)
            }
            Err(StoreError::Memory) => Err(StoreError::Memory),
        }
    }
}

/// Appends the bytes of the file, at most `LONGEST` of them, or leaves `into` as it was.
fn read_file<R: Folder>(rt: &mut R, name: &str, into: &mut Vec<u8>) -> Result<(), LoadError>
    ensures { LoadsBy R.has_made R.Reader.has_made rt.old rt.new name.now into.old.items into.new.items result }
{
    match rt.open_file(name) {
        Ok(mut reader) => read_whole(&mut reader, into),
        Err(error) => Err(open_refusal(&error)),
    }
}

/// Why a file can't be opened: it is absent exactly where the system says that there is no such
/// entry.
fn open_refusal(error: &Error) -> LoadError
    ensures { OpenRefusal (error_kind error.now) result }
{
    match error.kind() {
        ErrorKind::NotFound => LoadError::Absent,
        ErrorKind::OutOfMemory => LoadError::Memory,
        _ => LoadError::Failed,
    }
}

/// Replaces the bytes of the file, and makes it and the folders that it lies in where they are
/// missing.
fn write_file<R: Folder>(rt: &mut R, name: &str, bytes: &[u8]) -> Result<(), StoreError>
    ensures { StoresBy R.has_made R.Writer.has_made rt.old rt.new name.now bytes.now result }
{
    match parent_of(name) {
        None => create_file(rt, name, bytes),
        Some(folder) => match rt.make_folder(folder) {
            Ok(()) => create_file(rt, name, bytes),
            Err(error) => Err(store_refusal(&error)),
        },
    }
}

/// The path of the folder that a file lies in, where its name has one.
fn parent_of(name: &str) -> Option<&str>
    ensures { option_copied result ≡ path_parent name.now }
{
    match Path::new(name).parent() {
        None => None,
        Some(folder) => Some(folder.as_str()),
    }
}

/// Makes the file and puts its bytes.
fn create_file<R: Folder>(rt: &mut R, name: &str, bytes: &[u8]) -> Result<(), StoreError>
    ensures { CreatesBehind R.has_made R.Writer.has_made rt.old rt.new name.now bytes.now result [] }
{
    match rt.create_file(name) {
        Ok(mut writer) => stored(pass(&mut writer, bytes)),
        Err(error) => Err(store_refusal(&error)),
    }
}

/// The answer of a store whose bytes were put with this answer.
fn stored(outcome: Result<(), PutError>) -> Result<(), StoreError>
    ensures { result ≡ store_result outcome }
{
    match outcome {
        Ok(()) => Ok(()),
        Err(PutError::Failed) => Err(StoreError::Failed),
        Err(PutError::Memory) => Err(StoreError::Memory),
    }
}

/// Why a file or a folder can't be made.
fn store_refusal(error: &Error) -> StoreError
    ensures { StoreRefusal (error_kind error.now) result }
{
    match error.kind() {
        ErrorKind::OutOfMemory => StoreError::Memory,
        _ => StoreError::Failed,
    }
}
