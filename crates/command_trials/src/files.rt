use crate::texts::bytes_of;
use outside_dm::{FileList, MemoryShelf, NamedFile};
use std::alloc::Global;
use value_dm::{Bytes, Text};

/// Adds a file. None where one has this name already, or for want of memory.
pub fn add_file(alloc: Global, list: &mut FileList, name: &str, bytes: Vec<u8>) -> Option<()> {
    if !list.lacks(name) {
        return None;
    }
    let pushed = list.push(NamedFile {
        name: Text::from_str(alloc, name).ok()?,
        bytes: Bytes::from_vec(bytes),
    });
    pushed.ok()
}

// The bytes of a file whose lines these are (`bytes_of`). The last has no line end where `<>` stands there.
fn content_of(alloc: Global, lines: &str) -> Option<Vec<u8>> {
    match lines.strip_suffix("<>") {
        Some(lines) => bytes_of(alloc, lines),
        None => {
            let mut bytes = bytes_of(alloc, lines)?;
            bytes.push(b'\n').ok()?;
            Some(bytes)
        }
    }
}

// The name and the bytes of a file that is told as text.
fn file_of(alloc: Global, file: &str) -> Option<(&str, Vec<u8>)> {
    match file.split_once('\n') {
        Some((name, lines)) => Some((name, content_of(alloc, lines)?)),
        None => Some((file, Vec::new(alloc))),
    }
}

/// Adds the files that are told as text, each its name behind a line end and `+ `, and then its lines (`bytes_of`), of which `<>` at the
/// end takes the last line's end away; what stands before the first is no file. None where two have one name, or for want of memory.
pub fn add_files(alloc: Global, list: &mut FileList, files: &str) -> Option<()> {
    for file in files.split("\n+ ").skip(1) {
        let (name, bytes) = file_of(alloc, file)?;
        add_file(alloc, list, name, bytes)?;
    }
    Some(())
}

/// The files that are told as text (`add_files`). None where two have one name, or for want of memory.
pub fn files_of(alloc: Global, files: &str) -> Option<FileList> {
    let mut list = FileList::new(alloc);
    add_files(alloc, &mut list, files)?;
    Some(list)
}

// Whether the shelf has the file, or has none where that is told.
fn has_file(alloc: Global, shelf: &MemoryShelf, file: &str) -> Option<bool> {
    let (name, content) = file_of(alloc, file)?;
    Some(match shelf.content(name) {
        Some(bytes) => bytes == content.as_slice(),
        None => content.as_slice() == b"-\n".as_slice(),
    })
}

/// Whether the shelf has the files that are told as text, each its name behind a line end and `@ `, and then its lines as `add_files` takes
/// them, where `-` alone says that no file has the name. None for want of memory.
pub fn has_files(alloc: Global, shelf: &MemoryShelf, files: &str) -> Option<bool> {
    for file in files.split("\n@ ").skip(1) {
        if !has_file(alloc, shelf, file)? {
            return Some(false);
        }
    }
    Some(true)
}
