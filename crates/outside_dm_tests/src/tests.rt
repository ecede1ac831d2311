use outside_dm::{
    Cut, Cuts, FileList, FolderShelf, LoadError, NamedFile, PutError, Shelf, Sink, StoreError,
    StreamSink, read_whole,
};
use std::alloc::Global;
use std::io::{Read, Write};
use std::test::Fail;
use std::{fs, io};
use value_dm::{Bytes, Text, TryCopy};

fn is_copied<T: TryCopy + PartialEq + Drop>(alloc: Global, value: Option<T>) -> bool {
    match value {
        Some(value) => match value.copy(alloc) {
            Ok(copy) => copy == value,
            Err(_) => false,
        },
        None => false,
    }
}

fn named(alloc: Global, name: &str) -> Option<NamedFile> {
    let mut bytes = Bytes::new(alloc);
    bytes.push(7).ok()?;
    let name = Text::from_str(alloc, name).ok()?;
    Some(NamedFile { name, bytes })
}

fn is_named(file: &NamedFile, name: &str) -> bool {
    (file.name.as_str() == name) & (file.bytes.as_slice() == [7].as_slice())
}

fn list(alloc: Global) -> Option<FileList> {
    let mut files = FileList::new(alloc);
    let file = named(alloc, "a")?;
    if files.lacks(file.name.as_str()) {
        files.push(file).ok()?;
    }
    Some(files)
}

fn is_list_copied(alloc: Global) -> Option<bool> {
    let files = list(alloc)?;
    let copy = files.copy(alloc).ok()?;
    let file = copy.as_slice().first()?;
    Some(is_named(file, "a") & (copy.len() == 1))
}

fn cuts(alloc: Global) -> Option<Cuts> {
    let mut cuts = Cuts::new(alloc);
    cuts.push(Cut { call: 2, kept: 3 }).ok()?;
    Some(cuts)
}

#[test]
fn copies(rt: HostRuntime) -> Result<(), Fail> {
    let copied = is_list_copied(rt.alloc());
    assert_eq!(rt; copied, Some(true));
    let copied = is_copied(rt.alloc(), cuts(rt.alloc()));
    assert!(rt; copied);
    Ok(())
}

/// Takes one byte a write, up to a number of writes, and then nothing or fails with this error of
/// the system; fails at its flush where it is told to.
#[derive(Drop)]
struct Slow {
    bytes: Vec<u8>,
    writes: usize,
    most: usize,
    write_error: Option<i32>,
    flush_error: Option<i32>,
}

impl Write for Slow {
    fn write(&mut self, piece: &[u8]) -> io::Result<usize> {
        self.writes = self.writes.saturating_add(1);
        if self.writes > self.most {
            return match self.write_error {
                None => Ok(0),
                Some(code) => Err(io::Error::from_raw_os_error(code)),
            };
        }
        match piece.first() {
            None => Ok(0),
            Some(byte) => {
                self.bytes.push(*byte)?;
                Ok(1)
            }
        }
    }

    fn flush(&mut self) -> io::Result<()> {
        match self.flush_error {
            None => Ok(()),
            Some(code) => Err(io::Error::from_raw_os_error(code)),
        }
    }
}

/// The system's error where a device is full, and where memory ran out.
const FULL: i32 = 28;

const NO_MEMORY: i32 = 12;

type PutCase = (
    usize,
    Option<i32>,
    Option<i32>,
    Result<(), PutError>,
    &'static [u8],
    usize,
);

// How many writes take a byte, the errors behind them and at the flush, and then the answer to a put of `abc`, what was taken, and how many
// writes were asked for.
const PUTS: [PutCase; 6] = [
    (9, None, None, Ok(()), b"abc", 3),
    (2, None, None, Err(PutError::Failed), b"ab", 3),
    (1, Some(FULL), None, Err(PutError::Failed), b"a", 2),
    (1, Some(NO_MEMORY), None, Err(PutError::Memory), b"a", 2),
    (9, None, Some(FULL), Err(PutError::Failed), b"abc", 3),
    (9, None, Some(NO_MEMORY), Err(PutError::Memory), b"abc", 3),
];

fn put_through(slow: &mut Slow) -> Result<(), PutError> {
    StreamSink::new(slow).put(b"abc")
}

fn wrong_put(alloc: Global) -> Option<usize> {
    for (place, case) in PUTS.iter().enumerate() {
        let (most, write_error, flush_error, answer, bytes, writes) = *case;
        let mut slow = Slow {
            bytes: Vec::new(alloc),
            writes: 0,
            most,
            write_error,
            flush_error,
        };
        let found = put_through(&mut slow);
        if (found != answer) | (slow.bytes.as_slice() != bytes) | (slow.writes != writes) {
            return Some(place);
        }
    }
    None
}

fn put_twice(alloc: Global) -> Option<Vec<u8>> {
    let mut held = Vec::new(alloc);
    let mut sink = StreamSink::new(&mut held);
    sink.put(b"ab").ok()?;
    sink.put(b"c").ok()?;
    Some(held)
}

fn is_put_twice(alloc: Global) -> bool {
    match put_twice(alloc) {
        Some(held) => held.as_slice() == b"abc".as_slice(),
        None => false,
    }
}

/// Gives its bytes one a read, and fails behind the last with this error of the system.
#[derive(Drop)]
struct Drip<'a> {
    bytes: &'a [u8],
    error: Option<i32>,
}

impl Read for Drip<'_> {
    fn read(&mut self, buffer: &mut [u8]) -> io::Result<usize> {
        if let Some(code) = self.error {
            if self.bytes.is_empty() {
                return Err(io::Error::from_raw_os_error(code));
            }
        }
        let most = buffer.len().min(1);
        self.bytes.read(&mut buffer[..most])
    }
}

// The error behind `abc`, the answer, and what stands behind a byte that was there then.
const READS: [(Option<i32>, Result<(), LoadError>, &[u8]); 3] = [
    (None, Ok(()), b">abc"),
    (Some(FULL), Err(LoadError::Failed), b">"),
    (Some(NO_MEMORY), Err(LoadError::Memory), b">"),
];

fn is_read(
    alloc: Global,
    error: Option<i32>,
    answer: Result<(), LoadError>,
    bytes: &[u8],
) -> Option<bool> {
    let mut into = Vec::from_slice(alloc, b">").ok()?;
    let mut drip = Drip {
        bytes: b"abc",
        error,
    };
    let found = read_whole(&mut drip, &mut into);
    Some((found == answer) & (into.as_slice() == bytes))
}

fn wrong_read(alloc: Global) -> Option<usize> {
    for (place, case) in READS.iter().enumerate() {
        let (error, answer, bytes) = *case;
        if is_read(alloc, error, answer, bytes) != Some(true) {
            return Some(place);
        }
    }
    None
}

#[test]
fn writers_and_readers(rt: HostRuntime) -> Result<(), Fail> {
    let wrong = wrong_put(rt.alloc());
    assert_eq!(rt; wrong, None);
    let found = is_put_twice(rt.alloc());
    assert!(rt; found);
    let wrong = wrong_read(rt.alloc());
    assert_eq!(rt; wrong, None);
    Ok(())
}

// What is stored, by name and by how many bytes 7 it has, and the answer.
const STORES: [(&str, usize, Result<(), StoreError>); 3] = [
    ("stored/deep/file", 30_000, Ok(())),
    ("stored/deep/file", 20_000, Ok(())),
    ("stored/deep", 20_000, Err(StoreError::Failed)),
];

// What is loaded then, one behind the other, the answer, and how many bytes 7 stand then.
const LOADS: [(&str, Result<(), LoadError>, usize); 5] = [
    ("stored/none", Err(LoadError::Absent), 0),
    ("stored/deep/file", Ok(()), 20_000),
    ("stored/deep/file/none", Err(LoadError::Failed), 20_000),
    ("stored", Err(LoadError::Failed), 20_000),
    ("stored/deep/file", Ok(()), 40_000),
];

fn store_sevens<S: Shelf>(
    alloc: Global,
    shelf: &mut S,
    name: &str,
    count: usize,
) -> Result<(), StoreError> {
    let sevens = vec![in alloc; 7u8; count]?;
    shelf.store(name, sevens.as_slice())
}

fn wrong_store<S: Shelf>(alloc: Global, shelf: &mut S) -> Option<&'static str> {
    for (name, count, answer) in STORES {
        if store_sevens(alloc, shelf, name, count) != answer {
            return Some(name);
        }
    }
    None
}

fn wrong_load<S: Shelf>(alloc: Global, shelf: &mut S) -> Option<&'static str> {
    let mut into = Vec::new(alloc);
    for (name, answer, count) in LOADS {
        let found = shelf.load(name, &mut into);
        let same = into.as_slice().iter().all(|&byte| byte == 7);
        if (found != answer) | (into.len() != count) | !same {
            return Some(name);
        }
    }
    None
}

#[test]
fn a_shelf_over_a_folder(rt: HostRuntime) -> Result<(), Fail> {
    let mut shelf = FolderShelf::new(&rt, rt.alloc());
    let wrong = wrong_store(rt.alloc(), &mut shelf);
    assert_eq!(rt; wrong, None);
    let wrong = wrong_load(rt.alloc(), &mut shelf);
    assert_eq!(rt; wrong, None);
    fs::remove_dir_all(&rt, "stored")?;
    Ok(())
}
