ghost use Rattle.std.specs.Prelude.{◌≡◌, ◌++◌, IfOk, string_bytes};
ghost use Rattle.cmd_dm.specs.Consistent.{conflict_text, consistent_script, verdict_text};
ghost use Rattle.cmd_dm.specs.Ending.{Ends, result_status, to_output};

use crate::check::push_labelled;
use crate::graphs::end_of_puts;
use crate::status::Status;
use crate::steps::load_graph;
use consistency_dm::{ConflictKind, Verdict};
use outside_dm::{Shelf, Sink};
use std::alloc::{AllocError, Global};
use value_dm::Text;

/// The word for the kind of a conflict.
fn conflict_text(kind: ConflictKind) -> &'static str
    ensures { result.now ≡ conflict_text kind }
{
    match kind {
        ConflictKind::SameNode => "same-node",
        ConflictKind::Range => "range",
    }
}

/// The line of a conflict.
fn conflict_line(alloc: Global, number: u64, kind: ConflictKind) -> Result<String, AllocError>
    ensures { IfOk result (λ text. string_bytes text ≡ verdict_text (Verdict.Conflict number kind)) }
{
    let mut text = String::new(alloc);
    push_labelled(&mut text, "conflict ", number)?;
    text.push_str(" ")?;
    text.push_str(conflict_text(kind))?;
    text.push_str("\n")?;
    Ok(text)
}

/// The text of `consistent` for this verdict.
fn verdict_text(alloc: Global, verdict: Verdict) -> Result<String, AllocError>
    ensures { IfOk result (λ text. string_bytes text ≡ verdict_text verdict) }
{
    match verdict {
        Verdict::Yes => String::from_str(alloc, "consistent\n"),
        Verdict::Conflict(number, kind) => conflict_line(alloc, number, kind),
    }
}

/// `consistent GRAPH`: writes whether some interpretation satisfies the triples of the file, or else the first that is a conflict.
pub(crate) fn run_consistent<S: Shelf, K: Sink>(
    alloc: Global,
    graph: &Text,
    shelf: &mut S,
    out: &mut K,
) -> Result<(), Status>
    ensures { Ends to_output (consistent_script graph.now) (S.state shelf.old) (S.state shelf.new) (K.state out.old) (K.state out.new) (result_status result) }
{
    let triples = load_graph(alloc, graph, shelf)?;
    let verdict = consistency_dm::consistent(alloc, triples.as_slice())?;
    let text = verdict_text(alloc, verdict)?;
    end_of_puts(out.put(text.as_bytes()))
}
