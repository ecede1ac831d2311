// The first bad triple of a graph.
ghost use Rattle.std.specs.Prelude.{◌≡◌, ◌<◌, Bool, IfOk, List, MatchOption, None, Some, cond, slice_get, ℕ};
ghost use Rattle.names_dm.specs.Statements.{Statement};
ghost use Rattle.layouts_dm.specs.Outcomes.{Passes};
ghost use Rattle.facts_dm.specs.Meanings.{NamingLaws};
ghost use Rattle.roles_dm.specs.Bad.{TellsFirstBad};
ghost use Rattle.roles_dm.specs.Judging.{IsSeen, TellsCause};
ghost use Rattle.roles_dm.specs.Columned.{AreColumned};
ghost use Rattle.roles_dm.specs.Findings.{Finds, IsTripleOf};
ghost use Rattle.roles_dm.specs.Numbered.{AreNumbers, AreNumbersOf};
ghost use Rattle.roles_dm.specs.Roles.{IsRead};
ghost use Rattle.roles_dm.specs.Seen.{AreFirsts, AreValued, HasCounted, Judges, NotesObject};

use crate::cause::{BadTriple, Cause};
use crate::columned::{Columned, columned_of};
use crate::finding::{Finding, finding_of};
use crate::numbered::Numbered;
use crate::role::Role;
use crate::seen::{Firsts, Valued};
use crate::words::Words;
use facts_dm::naming_laws;
use names_dm::{Base, Triple};
use std::alloc::{AllocError, Global};
use store_dm::Graph;

// The cause where another object of the subject and the predicate was noted before.
fn object_cause(
    firsts: &mut Firsts,
    numbers: Numbered,
    cause: Cause,
) -> Result<Option<Cause>, AllocError>
    ensures { IfOk result (λ found. (told : Bool) × NotesObject firsts.old firsts.new numbers told × (found ≡ cond told None (Some cause))) }
{
    let told = firsts.agrees(numbers)?;
    if told { Ok(None) } else { Ok(Some(cause)) }
}

// Whether a node that is marked is one of no class.
fn mark_cause(
    alloc: Global,
    graph: &Graph,
    words: &Words,
    roles: &[Role],
    valued: &mut Valued,
    numbers: Numbered,
) -> Result<Option<Cause>, AllocError>
    ensures { IfOk result (λ found. AreValued graph.now roles.now valued.old → MatchOption found (HasCounted graph.now roles.now numbers.subject words.now.rdf_type × AreValued graph.now roles.now valued.new)
        (λ cause. (cause ≡ Cause.Unexplained) × (¬ HasCounted graph.now roles.now numbers.subject words.now.rdf_type))) }
{
    let told = valued.has(alloc, graph, roles, numbers.subject, words.rdf_type)?;
    if told {
        Ok(None)
    } else {
        Ok(Some(Cause::Unexplained))
    }
}

// Whether one of the nodes of a relation's pair has no value in the column.
fn pair_cause(
    alloc: Global,
    graph: &Graph,
    roles: &[Role],
    valued: &mut Valued,
    numbers: Numbered,
    left: u32,
    right: u32,
) -> Result<Option<Cause>, AllocError>
    ensures { IfOk result (λ found. AreValued graph.now roles.now valued.old → MatchOption found (HasCounted graph.now roles.now numbers.subject left × HasCounted graph.now roles.now numbers.object right × AreValued graph.now roles.now valued.new)
        (λ cause. (cause ≡ Cause.NoKeyValue) × (¬ (HasCounted graph.now roles.now numbers.subject left × HasCounted graph.now roles.now numbers.object right)))) }
{
    let first = valued.has(alloc, graph, roles, numbers.subject, left)?;
    if !first {
        return Ok(Some(Cause::NoKeyValue));
    }
    let second = valued.has(alloc, graph, roles, numbers.object, right)?;
    if second {
        Ok(None)
    } else {
        Ok(Some(Cause::NoKeyValue))
    }
}

// The cause that applies to a triple that says this, where every earlier triple passes.
fn judged(
    alloc: Global,
    graph: &Graph,
    words: &Words,
    roles: &[Role],
    firsts: &mut Firsts,
    valued: &mut Valued,
    numbers: Numbered,
    said: Finding,
) -> Result<Option<Cause>, AllocError>
    ensures { IfOk result (λ found. (base : List ℕ) (G : List Statement) (i : ℕ) (x : Statement) → IsTripleOf base graph.now words.now roles.now G x numbers → slice_get G i ≡ Some x → ((j : ℕ) → j < i → Passes base G j)
        → AreFirsts base graph.now G i firsts.old → AreValued graph.now roles.now valued.old → Finds base graph.now G x said → Judges base graph.now roles.now G i firsts.new valued.new found) }
{
    match said {
        Finding::Unexplained => Ok(Some(Cause::Unexplained)),
        Finding::Free => Ok(None),
        Finding::Class => object_cause(firsts, numbers, Cause::TwoTables),
        Finding::Value => object_cause(firsts, numbers, Cause::TwoValues),
        Finding::Mark => mark_cause(alloc, graph, words, roles, valued, numbers),
        Finding::Pair { left, right } => {
            pair_cause(alloc, graph, roles, valued, numbers, left, right)
        }
    }
}

// What has been seen of a graph.
#[derive(Drop)]
struct Seen {
    columned: Columned,
    firsts: Firsts,
    valued: Valued,
}

// The cause that applies to the triple of these numbers at a place, where every earlier triple passes.
fn cause_at(
    alloc: Global,
    graph: &Graph,
    words: &Words,
    roles: &[Role],
    seen: &mut Seen,
    triple: &Triple,
    numbers: Numbered,
) -> Result<Option<Cause>, AllocError>
    ensures { IfOk result (λ found. (base : List ℕ) (G : List Statement) (i : ℕ) → NamingLaws base → IsRead base graph.now words.now roles.now G → slice_get G i ≡ Some triple.now → AreNumbersOf graph.now triple.now numbers
        → ((j : ℕ) → j < i → Passes base G j) → IsSeen base graph.now roles.now G i seen.old → TellsCause base graph.now roles.now G i seen.new found) }
{
    let _subject = triple.subject();
    let said = finding_of(
        alloc,
        graph,
        words,
        roles,
        &seen.columned,
        numbers,
        triple.object(),
    )?;
    judged(
        alloc,
        graph,
        words,
        roles,
        &mut seen.firsts,
        &mut seen.valued,
        numbers,
        said,
    )
}

/// The first triple, in order, to which one of the four causes applies, and the cause; None where none applies to any. The
/// numbers, the graph, the words and the roles are those of the triples. Refused for want of memory alone.
pub fn first_bad(
    alloc: Global,
    base: &Base,
    triples: &[Triple],
    numbers: &[Numbered],
    graph: &Graph,
    words: &Words,
    roles: &[Role],
) -> Result<Option<BadTriple>, AllocError>
    ensures { IfOk result (λ found. AreNumbers graph.now triples.now numbers.now → IsRead base.now graph.now words.now roles.now triples.now → TellsFirstBad base.now triples.now found) }
{
    naming_laws(base);
    let mut seen = Seen {
        columned: columned_of(alloc, roles)?,
        firsts: Firsts::new(alloc),
        valued: Valued::new(alloc),
    };
    for (before, triple) in triples.iter().enumerate() {
        let Some(numbered) = numbers.get(before) else {
            return Ok(None);
        };
        let found = cause_at(alloc, graph, words, roles, &mut seen, triple, *numbered)?;
        if let Some(cause) = found {
            return Ok(Some(BadTriple {
                place: before as u64 + 1,
                cause,
            }));
        }
    }
    Ok(None)
}
