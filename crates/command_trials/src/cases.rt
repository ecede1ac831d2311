use crate::files::{add_file, add_files, has_files};
use crate::runs::{Ended, Fault, fault_of, output_of, run_on, run_without_faults, shelf_of};
use crate::texts::bytes_of;
use outside_dm::FileList;
use std::alloc::Global;
use value_dm::TryCopy;

// How the runs of a case end.
#[derive(Clone, Copy, Drop)]
enum Told<'a> {
    // The number of the status as a line, the output, and the line on standard error behind `! `, where there is one.
    Whole(&'a str),
    // The number of the status and the line, in one line.
    Line(&'a str),
}

/// The parts of a case.
#[derive(Clone, Copy, Drop)]
pub struct Case<'a> {
    // The commands, each behind a line end.
    commands: &'a str,
    // The files behind the commands.
    files: &'a str,
    // The call that fails.
    fault: Fault,
    told: Told<'a>,
    // The files that stand then.
    stored: &'a str,
}

// The text up to the first of these marks, and from the mark on.
fn parted<'a>(text: &'a str, mark: &str) -> (&'a str, &'a str) {
    match text.find(mark) {
        Some(place) => text.split_at(place),
        None => (text, ""),
    }
}

// How the runs end, and the files that stand then.
fn told_of(text: &str) -> Option<(Told, &str)> {
    let (ending, stored) = parted(text, "\n@ ");
    match ending.strip_prefix("\n= ") {
        Some(whole) => Some((Told::Whole(whole), stored)),
        None => Some((Told::Line(ending.strip_prefix("\n! ")?), stored)),
    }
}

/// The parts of a case that is told as text, behind a line end: the commands; the files (`add_files`); where a call fails, its device and
/// number behind `~ ` (`fault_of`); how the runs end, behind `= `, or behind `! ` where the output isn't told; and the files that stand
/// then (`has_files`). None where it has no ending, or no such call.
pub fn case_of(text: &str) -> Option<Case> {
    let ending = if text.contains("\n= ") {
        "\n= "
    } else {
        "\n! "
    };
    let (given, wanted) = parted(text, ending);
    let (given, call) = parted(given, "\n~ ");
    let (commands, files) = parted(given, "\n+ ");
    let (told, stored) = told_of(wanted)?;
    Some(Case {
        commands,
        files,
        fault: fault_of(call.strip_prefix("\n~ ").unwrap_or(""))?,
        told,
        stored,
    })
}

// How a run ended, as a case tells it with its output.
fn whole_ending(alloc: Global, ended: &Ended) -> Option<Vec<u8>> {
    let number = format!(in alloc; "{}\n", ended.number).ok()?;
    let mut whole = Vec::from_slice(alloc, number.as_bytes()).ok()?;
    whole.extend_from_slice(ended.output.as_slice()).ok()?;
    if ended.line.len() > 0 {
        whole.extend_from_slice(b"! ").ok()?;
        whole.extend_from_slice(ended.line.as_slice()).ok()?;
    }
    Some(whole)
}

// How a run ended, as a case tells it without its output.
fn line_ending(alloc: Global, ended: &Ended) -> Option<Vec<u8>> {
    let number = format!(in alloc; "{}", ended.number).ok()?;
    let mut ending = Vec::from_slice(alloc, number.as_bytes()).ok()?;
    if ended.line.len() > 0 {
        ending.extend_from_slice(b" ").ok()?;
        ending.extend_from_slice(ended.line.as_slice()).ok()?;
    } else {
        ending.push(b'\n').ok()?;
    }
    Some(ending)
}

// How a run ended, where that isn't as told; empty where it is.
fn other_ending(alloc: Global, ended: &Ended, told: Told) -> Option<Vec<u8>> {
    let (ending, text) = match told {
        Told::Whole(text) => (whole_ending(alloc, ended)?, text),
        Told::Line(text) => (line_ending(alloc, ended)?, text),
    };
    let mut wanted = bytes_of(alloc, text)?;
    wanted.push(b'\n').ok()?;
    if ending == wanted {
        Some(Vec::new(alloc))
    } else {
        Some(ending)
    }
}

// How a run of the words over these files ends, where that isn't as the case tells; empty where it is.
fn run_otherwise(alloc: Global, line: &str, files: &FileList, case: &Case) -> Option<Vec<u8>> {
    let mut shelf = shelf_of(alloc, files.copy(alloc).ok()?, case.fault)?;
    let ended = run_on(alloc, line, &mut shelf, case.fault)?;
    let ending = other_ending(alloc, &ended, case.told)?;
    if ending.len() == 0 && !has_files(alloc, &shelf, case.stored)? {
        return Vec::from_slice(alloc, b"other files\n").ok();
    }
    Some(ending)
}

// The same over devices that never fail, where none is to.
fn ends_otherwise_without_faults(
    alloc: Global,
    line: &str,
    files: &FileList,
    case: &Case,
) -> Option<Vec<u8>> {
    match case.fault {
        Fault::Nowhere => {
            let ended = run_without_faults(alloc, line, files.copy(alloc).ok()?)?;
            other_ending(alloc, &ended, case.told)
        }
        _ => Some(Vec::new(alloc)),
    }
}

// The same over devices of which calls may fail, and then over devices that never do.
fn line_otherwise(alloc: Global, line: &str, files: &FileList, case: &Case) -> Option<Vec<u8>> {
    let ending = run_otherwise(alloc, line, files, case)?;
    if ending.len() > 0 {
        return Some(ending);
    }
    ends_otherwise_without_faults(alloc, line, files, case)
}

// How a command ends, where that isn't as the case tells; empty where it is. The output of a command with ` > ` is kept as the file that
// is named there, and the command is to end well.
fn command_otherwise(
    alloc: Global,
    command: &str,
    files: &mut FileList,
    case: &Case,
) -> Option<Vec<u8>> {
    match command.split_once(" > ") {
        Some((line, name)) => {
            let output = output_of(alloc, line, files.copy(alloc).ok()?)?;
            add_file(alloc, files, name, output)?;
            Some(Vec::new(alloc))
        }
        None => line_otherwise(alloc, command, files, case),
    }
}

/// How the first command of the case, over these files and its own, ends, where that isn't as it tells; empty where each ends so. The
/// commands stand each behind a line end and `dbrdf `; the output of one with ` > ` is kept as the file that is named there for those behind
/// it, and the others end as the case tells. None where a kept one doesn't end well, where two files have one name, or for want of memory.
pub fn ends_otherwise(alloc: Global, standing: &FileList, case: &Case) -> Option<Vec<u8>> {
    let mut files = standing.copy(alloc).ok()?;
    add_files(alloc, &mut files, case.files)?;
    for command in case.commands.split("\ndbrdf ").skip(1) {
        let ending = command_otherwise(alloc, command, &mut files, case)?;
        if ending.len() > 0 {
            return Some(ending);
        }
    }
    Some(Vec::new(alloc))
}
