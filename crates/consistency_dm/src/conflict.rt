// The first triple that is a conflict.
ghost use Rattle.std.specs.Prelude.{◌≡◌, ◌↔◌, ℕ, IfOk, IsTrue, List, not};
ghost use Rattle.names_dm.specs.Statements.{Statement, is_literal};
ghost use Rattle.consistency_dm.specs.Conflicts.{IsFirstConflict, IsSameNode, IsVerdict};
ghost use Rattle.consistency_dm.specs.Interpretations.{HasInterpretation};
ghost use Rattle.consistency_dm.specs.Ranges.{AreRangesOf, AreRising, IsToldAs};
ghost use Rattle.consistency_dm.specs.declared.verdict.ConflictKind.{ConflictKind as TheKind};

use crate::range::{StatedRange, has_text, is_kept_out, ranges_of};
use crate::verdict::{ConflictKind, Verdict};
use facts_dm::Word;
use names_dm::Triple;
use std::alloc::{AllocError, Global};
use value_dm::same;

// Whether the triple says that a node differs from itself.
fn is_same_node(triple: &Triple) -> bool
    ensures same { IsTrue result ↔ IsSameNode triple.now }
    ensures node { IsTrue (not (is_literal triple.now.subject)) }
{
    let subject = triple.subject();
    has_text(triple.predicate(), Word::OwlDifferentFrom.as_str()) && same(subject, triple.object())
}

fn conflict_of(ranges: &[StatedRange<'_>], triple: &Triple) -> Option<ConflictKind>
    requires { AreRising ranges.now }
    ensures told { (triples : List Statement) → AreRangesOf triples ranges.now → IsToldAs triples triple.now result }
    ensures node { IsTrue (not (is_literal triple.now.subject)) }
{
    if is_same_node(triple) {
        Some(ConflictKind::SameNode)
    } else if is_kept_out(ranges, triple) {
        Some(ConflictKind::Range)
    } else {
        None
    }
}

/// Whether some interpretation satisfies all the triples, or else the first triple that is a conflict: its number, counted from 1
/// with repeats, and its kind. A triple that is a conflict of both kinds is told as `SameNode`.
///
/// What interpretations are is this project's own, after OWL 2, Direct Semantics, section 2.3: rdf:type, rdfs:domain,
/// rdfs:range and owl:differentFrom have their meaning, datatypes differ where their IRIs do, and no literal's text is looked at.
///
/// Refused for want of memory alone. Takes n log n comparisons for n triples, whatever they are.
pub fn consistent(alloc: Global, triples: &[Triple]) -> Result<Verdict, AllocError>
    ensures yes { IfOk result (λ verdict. (verdict ≡ Verdict.Yes) ↔ HasInterpretation triples.now) }
    ensures conflict { IfOk result (λ verdict. (number : ℕ) (kind : TheKind) → (verdict ≡ Verdict.Conflict number kind) ↔ IsFirstConflict triples.now number kind) }
{
    let ranges = ranges_of(alloc, triples)?;
    for (place, triple) in triples.iter().enumerate() {
        if let Some(kind) = conflict_of(ranges.as_slice(), triple) {
            return Ok(Verdict::Conflict(place as u64 + 1, kind));
        }
    }
    Ok(Verdict::Yes)
}
