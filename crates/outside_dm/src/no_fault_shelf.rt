ghost use Rattle.std.specs.Prelude.{◌≡◌, Some, [], OnErr, IsSomeAnd};
ghost use Rattle.std.specs.Option.{option_copied};
ghost use Rattle.std.specs.FinMap.{get};
ghost use Rattle.outside_dm.specs.Files.{files_of};

use crate::files::FileList;
use crate::shelf::{LONGEST, LoadError, Shelf, StoreError};

/// A shelf in memory that never fails.
#[derive(Drop)]
pub struct NoFaultShelf {
    files: FileList,
    absences: u64,
    overlongs: u64,
}

impl NoFaultShelf {
    /// A shelf of these files. Takes no memory.
    pub fn new(files: FileList) -> NoFaultShelf
        ensures { ⟦<NoFaultShelf as Shelf>⟧.state result
            ≡ record { files = Some (files_of files); failed = []; load_faults = 0; store_faults = 0; absences = 0; overlongs = 0 } }
    {
        NoFaultShelf {
            files,
            absences: 0,
            overlongs: 0,
        }
    }

    /// The bytes under this name, or None where no file has it.
    pub fn content(&self, name: &str) -> Option<&[u8]>
        ensures { IsSomeAnd (⟦<NoFaultShelf as Shelf>⟧.state self.now).files (λ files. option_copied result ≡ get files name.now) }
    {
        self.files.content(name)
    }
}

impl Shelf for NoFaultShelf {
    ghost state = { λ shelf. record {
      files = Some (files_of shelf.files);
      failed = [];
      load_faults = 0;
      store_faults = 0;
      absences = shelf.absences;
      overlongs = shelf.overlongs;
    } };

    fn load(&mut self, name: &str, into: &mut Vec<u8>) -> Result<(), LoadError> {
        match self.files.content(name) {
            None => {
                self.absences = self.absences.saturating_add(1);
                Err(LoadError::Absent)
            }
            Some(bytes) => {
                if bytes.len() > LONGEST {
                    self.overlongs = self.overlongs.saturating_add(1);
                    return Err(LoadError::TooLong);
                }
                into.extend_from_slice(bytes)?;
                Ok(())
            }
        }
    }

    fn store(&mut self, name: &str, bytes: &[u8]) -> Result<(), StoreError> {
        self.files.replace(name, bytes)?;
        Ok(())
    }
}
