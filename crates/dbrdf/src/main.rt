//! `dbrdf`: relational databases as RDF, and back. It runs the command that its words stand for over files of the
//! host, standard output and standard error.
#![tactic(auto)]

ghost use Rattle.std.specs.Prelude.{◌≡◌, IfOk, drop, map, string_bytes};
ghost use Rattle.std.specs.IoError.{error_kind};
ghost use Rattle.std.specs.Process.{exit_status};
ghost use Rattle.std.specs.Vec.Iter.{into_iter_items};
ghost use Rattle.cmd_dm.specs.Statuses.{number_of};
ghost use Rattle.cmd_dm.specs.declared.status.Status.{Status};
ghost use Rattle.dbrdf.specs.Program.{Ran, RunsWords, Untaken, words_of};

use cmd_dm::{Status, run};
use outside_dm::{FolderShelf, Shelf, Sink, StreamSink};
use std::alloc::{AllocError, Global};
use std::env::Args;
use std::io::{Error, ErrorKind};
use std::process::ExitCode;
use std::{env, io};

/// The status of words that can't be taken: want of memory, or a word that isn't UTF-8.
fn refused_words(error: &Error) -> Status
    ensures { Untaken (error_kind error.now) result }
{
    if error.kind() == ErrorKind::OutOfMemory {
        Status::Memory
    } else {
        Status::Usage
    }
}

/// All words of the command line.
fn all_words(alloc: Global, words: Args) -> Result<Vec<String>, AllocError>
    ensures { IfOk result (λ all. all.items ≡ into_iter_items words) }
{
    let mut all = Vec::new(alloc);
    for word in words {
        all.push(word)?;
    }
    Ok(all)
}

/// The words behind the program's name, which stands first.
fn behind_name(words: &[String]) -> &[String]
    ensures { result.now ≡ drop 1 words.now }
{
    match words {
        [] => words,
        [_, rest @ ..] => rest,
    }
}

/// Runs the command that these words stand for, over these devices.
fn run_command<S: Shelf, K: Sink, D: Sink>(
    alloc: Global,
    words: &[String],
    shelf: &mut S,
    out: &mut K,
    diag: &mut D,
) -> Status
    ensures { Ran (map string_bytes words.now)
        (record { shelf = S.state shelf.old; output = K.state out.old; line = D.state diag.old })
        (record { shelf = S.state shelf.new; output = K.state out.new; line = D.state diag.new }) result }
{
    run(alloc, words, shelf, out, diag)
}

/// Runs the command that the words of the command line stand for, over these devices.
fn run_words<S: Shelf, K: Sink, D: Sink>(
    alloc: Global,
    words: io::Result<Args>,
    shelf: &mut S,
    out: &mut K,
    diag: &mut D,
) -> Status
    ensures { RunsWords (words_of words)
        (record { shelf = S.state shelf.old; output = K.state out.old; line = D.state diag.old })
        (record { shelf = S.state shelf.new; output = K.state out.new; line = D.state diag.new }) result }
{
    match words {
        Ok(words) => match all_words(alloc, words) {
            Ok(all) => run_command(alloc, behind_name(all.as_slice()), shelf, out, diag),
            Err(AllocError) => Status::Memory,
        },
        Err(error) => refused_words(&error),
    }
}

/// The exit status of a run: the number of its status.
fn exit_code(status: &Status) -> ExitCode
    ensures { exit_status result ≡ number_of status.now }
{
    ExitCode::from(status.number())
}

/// Runs the command that the words of the command line stand for, over these devices, and gives the
/// exit status: the number of the run's status.
fn program<S: Shelf, K: Sink, D: Sink>(
    alloc: Global,
    words: io::Result<Args>,
    shelf: &mut S,
    out: &mut K,
    diag: &mut D,
) -> ExitCode
    ensures { (status : Status) × (exit_status result ≡ number_of status) × RunsWords (words_of words)
        (record { shelf = S.state shelf.old; output = K.state out.old; line = D.state diag.old })
        (record { shelf = S.state shelf.new; output = K.state out.new; line = D.state diag.new }) status }
{
    exit_code(&run_words(alloc, words, shelf, out, diag))
}

fn main(rt: HostRuntime) -> ExitCode {
    let alloc = rt.alloc();
    let words = env::args(&rt);
    let mut out = StreamSink::new(rt.stdout());
    let mut diag = StreamSink::new(rt.stderr());
    let mut shelf = FolderShelf::new(rt, alloc);
    program(alloc, words, &mut shelf, &mut out, &mut diag)
}
