ghost use Rattle.std.specs.Prelude.{◌≡◌, ◌↔◌, [], ◌∷◌, ◌++◌, length, IsTrue, OnOk, OnErr, IfErr, IfOk, IfSome, IfNone, encode_utf8_all};
ghost use Rattle.std.specs.Option.{option_copied};
ghost use Rattle.std.specs.FinMap.{get, insert};
ghost use Rattle.outside_dm.specs.Files.{files_of, NoneNamed, IsFirstNamed, HasDistinctNames};

use std::alloc::{AllocError, Global};
use std::marker::Model;
use value_dm::{AllocFailed, Bytes, Text, TryCopy};

/// A name with the bytes of its file.
#[derive(Drop)]
pub struct NamedFile {
    pub name: Text,
    pub bytes: Bytes,
}

/// Files with distinct names, in order. It keeps its allocator.
#[derive(Drop)]
pub struct FileList {
    items: Vec<NamedFile>,
    alloc: Global,
}

impl Model for FileList {
    ghost use Rattle.std.specs.Prelude.{List};
    ghost use Rattle.outside_dm.specs.declared.files.NamedFile.{NamedFile};

    ghost Value = { List NamedFile };

    ghost view = { λ files. files.items.items };

    ghost use Rattle.outside_dm.specs.Files.{HasDistinctNames};

    ghost invariant = { λ files. HasDistinctNames files.items.items };
}

impl FileList {
    /// No files. Takes no memory.
    pub fn new(alloc: Global) -> FileList
        ensures { result ≡ [] }
    {
        FileList {
            items: Vec::new(alloc),
            alloc,
        }
    }

    /// Appends the file, whose name must be new. For want of memory it gives the file back and
    /// changes nothing.
    pub fn push(&mut self, item: NamedFile) -> Result<(), AllocFailed<NamedFile>>
        requires { NoneNamed (encode_utf8_all item.name) self.old }
        ensures ok { OnOk result (self.new ≡ self.old ++ item ∷ []) }
        ensures err { OnErr result (self.new ≡ self.old) }
        ensures given_back { IfErr result (λ refused. refused.item ≡ item) }
    {
        match self.items.push(item) {
            Ok(()) => Ok(()),
            Err(refused) => Err(AllocFailed {
                item: refused.value,
            }),
        }
    }

    /// The number of files.
    pub fn len(&self) -> usize
        ensures { result ≡ length self.now }
    {
        self.items.len()
    }

    /// The files in order, which have distinct names.
    pub fn as_slice(&self) -> &[NamedFile]
        ensures items { result.now ≡ self.now }
        ensures distinct { HasDistinctNames self.now }
    {
        self.items.as_slice()
    }

    /// Whether no file has this name.
    pub fn lacks(&self, name: &str) -> bool
        ensures { IsTrue result ↔ NoneNamed name.now self.now }
    {
        place_of(self.items.as_slice(), name).is_none()
    }

    /// The bytes under this name.
    pub(crate) fn content(&self, name: &str) -> Option<&[u8]>
        ensures { option_copied result ≡ get (files_of self.now) name.now }
    {
        content_of(self.items.as_slice(), name)
    }

    /// Replaces the bytes under this name, or appends a file. For want of memory it changes nothing.
    pub(crate) fn replace(&mut self, name: &str, bytes: &[u8]) -> Result<(), AllocError>
        ensures ok { OnOk result (files_of self.new ≡ insert (files_of self.old) name.now bytes.now) }
        ensures err { OnErr result (self.new ≡ self.old) }
    {
        let bytes = Bytes::from_vec(Vec::from_slice(self.alloc, bytes)?);
        match place_of(self.items.as_slice(), name) {
            Some(place) => {
                self.items[place].bytes = bytes;
                Ok(())
            }
            None => {
                let name = Text::from_str(self.alloc, name)?;
                self.items.push(NamedFile { name, bytes })?;
                Ok(())
            }
        }
    }
}

impl TryCopy for NamedFile {
    fn copy(&self, alloc: Global) -> Result<NamedFile, AllocError> {
        Ok(NamedFile {
            name: self.name.copy(alloc)?,
            bytes: self.bytes.copy(alloc)?,
        })
    }
}

impl TryCopy for FileList {
    fn copy(&self, alloc: Global) -> Result<FileList, AllocError> {
        let mut items = Vec::new(alloc);
        for file in self.items.as_slice() {
            items.push(file.copy(alloc)?)?;
        }
        Ok(FileList { items, alloc })
    }
}

/// Whether the file has this name.
fn has_name(file: &NamedFile, name: &str) -> bool
    ensures { IsTrue result ↔ (encode_utf8_all file.now.name ≡ name.now) }
{
    file.name.as_str() == name
}

/// The place of the first file with this name.
fn place_of(files: &[NamedFile], name: &str) -> Option<usize>
    ensures found { IfSome result (λ place. IsFirstNamed files.now name.now place) }
    ensures none { IfNone result (NoneNamed name.now files.now) }
{
    for (place, file) in files.iter().enumerate() {
        if has_name(file, name) {
            return Some(place);
        }
    }
    None
}

/// The bytes of the first file with this name.
fn content_of<'a>(files: &'a [NamedFile], name: &str) -> Option<&'a [u8]>
    ensures { option_copied result ≡ get (files_of files.now) name.now }
{
    match place_of(files, name) {
        Some(place) => Some(files[place].bytes.as_slice()),
        None => None,
    }
}
