use crate::cases::{case_of, ends_otherwise};
use crate::files::files_of;
use outside_dm::FileList;
use std::alloc::Global;

/// What a script comes to.
#[derive(Drop)]
pub enum Verdict {
    /// All of so many cases end as they tell.
    Held(u64),
    /// The title of the first case that doesn't, and how it ends.
    Other(String, Vec<u8>),
}

// How a case ends, where that isn't as it tells; empty where it is.
fn case_otherwise(alloc: Global, standing: &FileList, text: &str) -> Option<Vec<u8>> {
    ends_otherwise(alloc, standing, &case_of(text)?)
}

fn make_other(alloc: Global, title: &str, ending: Option<Vec<u8>>) -> Option<Verdict> {
    let ending = match ending {
        Some(ending) => ending,
        None => Vec::from_slice(alloc, b"no run\n").ok()?,
    };
    Some(Verdict::Other(String::from_str(alloc, title).ok()?, ending))
}

/// What a script comes to. Its parts are parted by a line end and `%% `, and begin with a title as a line. One that goes on with
/// `dbrdf ` is a case (`case_of`), and any other tells the files (`files_of`) over which the cases behind it run. None for want of memory.
pub fn verdict_of(alloc: Global, script: &str) -> Option<Verdict> {
    let mut files = FileList::new(alloc);
    let mut count = 0u64;
    for part in script.strip_suffix("\n").unwrap_or(script).split("\n%% ") {
        let (title, text) = part.split_at(part.find('\n').unwrap_or(part.len()));
        if text.starts_with("\ndbrdf ") {
            match case_otherwise(alloc, &files, text) {
                Some(ending) if ending.len() == 0 => count = count.saturating_add(1),
                ending => return make_other(alloc, title, ending),
            }
        } else {
            files = files_of(alloc, text)?;
        }
    }
    Some(Verdict::Held(count))
}
