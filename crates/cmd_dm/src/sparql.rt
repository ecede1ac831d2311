ghost use Rattle.std.specs.Prelude.{◌≡◌, ◌≤◌, IfOk, length};
ghost use Rattle.pattern_dm.specs.Formed.{IsWellFormed};
ghost use Rattle.pattern_lines_dm.specs.Lines.{AreSolutionLines};
ghost use Rattle.cmd_dm.specs.Ending.{Ends, PureStep, Step, result_status, to_output};
ghost use Rattle.cmd_dm.specs.Sparql.{sparql_script};
ghost use Rattle.cmd_dm.specs.Steps.{parsed_step, parsed_text_step};

use crate::graphs::end_of_puts;
use crate::reasons::sparql_status;
use crate::status::{File, Status};
use crate::steps::{load_file, load_graph};
use names_dm::Triples;
use outside_dm::{Shelf, Sink};
use pattern_lines_dm::solution_lines;
use sparql_text_dm::{Parsed, read_sparql};
use std::alloc::{AllocError, Global};
use value_dm::{Bytes, Text};

/// Reads a header and a pattern as the next step.
#[tactic(auto, unfolding(crate::specs::Steps::parsed_text_step))]
fn read_pattern(alloc: Global, bytes: &Bytes) -> Result<Parsed, Status>
    ensures step { PureStep (parsed_text_step bytes.now) result }
    ensures formed { IfOk result (λ parsed. IsWellFormed parsed.pattern) }
{
    match read_sparql(alloc, bytes.as_slice()) {
        Ok(parsed) => Ok(parsed),
        Err(error) => Err(sparql_status(error)),
    }
}

/// Loads and reads the header and the pattern of the file of this name as the next step.
#[tactic(auto, unfolding(crate::specs::Steps::parsed_step))]
fn load_pattern<S: Shelf>(alloc: Global, name: &Text, shelf: &mut S) -> Result<Parsed, Status>
    ensures step { Step (parsed_step name.now) (S.state shelf.old) (S.state shelf.new) result }
    ensures formed { IfOk result (λ parsed. IsWellFormed parsed.pattern) }
{
    let bytes = load_file(alloc, File::Pattern, name.as_str(), shelf)?;
    read_pattern(alloc, &bytes)
}

/// The lines of the pattern's solutions over the triples.
fn lines_of(alloc: Global, parsed: &Parsed, triples: Triples) -> Result<Vec<u8>, AllocError>
    requires formed { IsWellFormed parsed.now.pattern }
    requires few { length triples ≤ 16777216 }
    ensures { IfOk result (λ text. AreSolutionLines triples parsed.now.pattern parsed.now.header text.items) }
{
    solution_lines(alloc, triples, parsed.pattern.get(), &parsed.header)
}

/// `sparql GRAPH PATTERN`: writes the solutions of the pattern of the file PATTERN over the triples of the file GRAPH, as tab
/// separated values.
pub(crate) fn run_sparql<S: Shelf, K: Sink>(
    alloc: Global,
    graph: &Text,
    pattern: &Text,
    shelf: &mut S,
    out: &mut K,
) -> Result<(), Status>
    ensures { Ends to_output (sparql_script graph.now pattern.now) (S.state shelf.old) (S.state shelf.new) (K.state out.old) (K.state out.new) (result_status result) }
{
    let parsed = load_pattern(alloc, pattern, shelf)?;
    let triples = load_graph(alloc, graph, shelf)?;
    let text = lines_of(alloc, &parsed, triples)?;
    end_of_puts(out.put(text.as_slice()))
}
