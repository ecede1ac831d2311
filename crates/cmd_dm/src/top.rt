ghost use Rattle.std.specs.Prelude.{◌≡◌, ◌⊎◌, ◌↔◌, Some, None, map, string_bytes};
ghost use Rattle.outside_dm.specs.Shelves.{Files};
ghost use Rattle.cmd_dm.specs.Ending.{Ends, NoFault, result_status};
ghost use Rattle.cmd_dm.specs.FaultLine.{Tells};
ghost use Rattle.cmd_dm.specs.Headline.{Promises};
ghost use Rattle.cmd_dm.specs.Plans.{IsOutcome, IsWithin, NamesFile, plan_of};
ghost use Rattle.cmd_dm.specs.Script.{Outcome, status_of};
ghost use Rattle.cmd_dm.specs.Words.{command_of};
ghost use Rattle.cmd_dm.specs.declared.status.File.{File};

use crate::append::run_append;
use crate::ask::{run_ask, run_translate};
use crate::bench::run_bench;
use crate::check::run_check;
use crate::clean::run_clean;
use crate::command::Command;
use crate::consistent::run_consistent;
use crate::fault_line::tell;
use crate::graphs::run_graph;
use crate::invert::run_invert;
use crate::rows::run_rows;
use crate::show::run_show;
use crate::sparql::run_sparql;
use crate::status::Status;
use crate::words::{WordError, read_words};
use graphs_dm::GraphName;
use outside_dm::{Shelf, Sink};
use std::alloc::Global;

/// Runs a command.
fn run_command<S: Shelf, K: Sink>(
    alloc: Global,
    command: &Command,
    shelf: &mut S,
    out: &mut K,
) -> Result<(), Status>
    requires { IsWithin command.now }
    ensures { Ends (plan_of command.now).target (plan_of command.now).script
        (S.state shelf.old) (S.state shelf.new) (K.state out.old) (K.state out.new) (result_status result) }
{
    match command {
        Command::Direct {
            base,
            folder,
            nulls,
        } => run_graph(alloc, GraphName::Direct, base, folder, *nulls, shelf, out),
        Command::Map {
            base,
            folder,
            nulls,
        } => run_graph(alloc, GraphName::Map, base, folder, *nulls, shelf, out),
        Command::MapKeys {
            base,
            folder,
            nulls,
        } => run_graph(alloc, GraphName::MapKeys, base, folder, *nulls, shelf, out),
        Command::Check { folder, nulls } => run_check(alloc, folder, *nulls, shelf, out),
        Command::Clean {
            folder,
            out: stored,
            nulls,
        } => run_clean(alloc, folder, stored, *nulls, shelf, out),
        Command::Append {
            base,
            folder,
            more,
            nulls,
        } => run_append(alloc, base, folder, more, *nulls, shelf, out),
        Command::Invert {
            base,
            graph,
            out: stored,
        } => run_invert(alloc, base, graph, stored, shelf),
        Command::Rows {
            folder,
            query,
            nulls,
        } => run_rows(alloc, folder, query, *nulls, shelf, out),
        Command::Translate {
            mode,
            base,
            folder,
            query,
        } => run_translate(alloc, *mode, base, folder, query, shelf, out),
        Command::Ask {
            mode,
            base,
            folder,
            graph,
            query,
        } => run_ask(alloc, *mode, base, folder, graph, query, shelf, out),
        Command::Sparql { graph, pattern } => run_sparql(alloc, graph, pattern, shelf, out),
        Command::Show { graph } => run_show(alloc, graph, shelf, out),
        Command::Consistent { graph } => run_consistent(alloc, graph, shelf, out),
        Command::Bench { n } => run_bench(alloc, *n, out),
    }
}

/// The status of a command's result.
fn status_of(outcome: Result<(), Status>) -> Status
    ensures { result ≡ result_status outcome }
{
    match outcome {
        Ok(()) => Status::Ok,
        Err(status) => status,
    }
}

/// Runs the command that the words stand for, and says nothing of how it ended.
fn decide<S: Shelf, K: Sink>(alloc: Global, words: &[String], shelf: &mut S, out: &mut K) -> Status
    ensures usage { (result ≡ Status.Usage) ↔ (command_of (map string_bytes words.now) ≡ None) }
    ensures no_command { command_of (map string_bytes words.now) ≡ None → (S.state shelf.new ≡ S.state shelf.old) × (K.state out.new ≡ K.state out.old) }
    ensures ends { (command : _) → command_of (map string_bytes words.now) ≡ Some command →
        Ends (plan_of command).target (plan_of command).script
        (S.state shelf.old) (S.state shelf.new) (K.state out.old) (K.state out.new) result }
{
    match read_words(alloc, words) {
        Ok(command) => status_of(run_command(alloc, &command, shelf, out)),
        Err(WordError::Usage) => Status::Usage,
        Err(WordError::Memory) => Status::Memory,
    }
}

/// Runs the command that the words stand for, which don't include the program's name: it loads from `shelf`, writes
/// to `out` or stores on `shelf`, and puts the line of `fault_text` to `diag` where the status isn't `Ok`. The line
/// takes no memory.
pub fn run<S: Shelf, K: Sink, D: Sink>(
    alloc: Global,
    words: &[String],
    shelf: &mut S,
    out: &mut K,
    diag: &mut D,
) -> Status
    // The words are no command, and no device was touched but for the line.
    ensures usage { (result ≡ Status.Usage) ↔ (command_of (map string_bytes words.now) ≡ None) }
    ensures no_command { command_of (map string_bytes words.now) ≡ None →
        (S.state shelf.new ≡ S.state shelf.old) × (K.state out.new ≡ K.state out.old) }

    // Each status has its cause, and says what was written.
    ensures ends { (command : _) → command_of (map string_bytes words.now) ≡ Some command →
        Ends (plan_of command).target (plan_of command).script
        (S.state shelf.old) (S.state shelf.new) (K.state out.old) (K.state out.new) result }

    // A file that the words alone name is the one at which the shelf failed, also where it tells nothing.
    ensures named { (command : _) (file : File) → command_of (map string_bytes words.now) ≡ Some command → result ≡ Status.ReadFault file →
        NamesFile command file (S.state shelf.new).failed }

    // Over all files something comes of the words, and one thing only; and over told files, without a fault, the run ends with
    // it, or for want of memory.
    ensures some_outcome { (files : Files) → ¬ ((outcome : Outcome) → ¬ IsOutcome files (command_of (map string_bytes words.now)) outcome) }
    ensures one_outcome { (files : Files) (outcome other : Outcome) →
        IsOutcome files (command_of (map string_bytes words.now)) outcome →
        IsOutcome files (command_of (map string_bytes words.now)) other → outcome ≡ other }
    ensures outcome { (files : Files) (outcome : Outcome) → (S.state shelf.old).files ≡ Some files →
        IsOutcome files (command_of (map string_bytes words.now)) outcome →
        NoFault (S.state shelf.old) (S.state shelf.new) (K.state out.old) (K.state out.new) →
        (result ≡ status_of outcome) ⊎ (result ≡ Status.Memory) }
    ensures comes { (files : Files) → (S.state shelf.old).files ≡ Some files →
        NoFault (S.state shelf.old) (S.state shelf.new) (K.state out.old) (K.state out.new) →
        ((outcome : Outcome) × IsOutcome files (command_of (map string_bytes words.now)) outcome) ⊎ (result ≡ Status.Memory) }

    // Over told files that are well-formed each command keeps its promise.
    ensures promise { (command : _) → command_of (map string_bytes words.now) ≡ Some command →
        Promises command (S.state shelf.old) (S.state shelf.new) (K.state out.old) (K.state out.new) result }

    // The line tells how the run ended.
    ensures line { Tells result (D.state diag.old) (D.state diag.new) }
{
    let status = decide(alloc, words, shelf, out);
    tell(&status, diag);
    status
}
