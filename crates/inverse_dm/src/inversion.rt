ghost use Rattle.std.specs.Prelude.{◌≡◌, ◌≢◌, ◌⊎◌, ◌≤◌, ℕ, [], IfErr, IfOk, IsErrOf, IsOk, List, MatchResult, length, map};
ghost use Rattle.graph_tables_dm.specs.TableReadings.{plain_of};
ghost use Rattle.layouts_dm.specs.LayoutTables.{AreOfShape, StandsFor};
ghost use Rattle.layouts_dm.specs.Outcomes.{Applies, Cause as Fault};
ghost use Rattle.names_dm.specs.Statements.{Statement};
ghost use Rattle.roles_dm.specs.Bad.{TellsFirstBad};
ghost use Rattle.roles_dm.specs.Numbered.{AreNumbers};
ghost use Rattle.roles_dm.specs.Roles.{IsRead};
ghost use Rattle.table_csv.specs.Plain.{PlainTable};
ghost use Rattle.inverse_dm.specs.Answers.{IsDetermined, Refuses, StandsWithin};
ghost use Rattle.inverse_dm.specs.Limits.{Exceeds, IsWithinLimits};

use crate::error::InverseError;
use crate::limits::check_limits;
use crate::tables::{Tables, tables_from};
use facts_dm::naming_laws;
use graph_tables_dm::{GraphTables, tables_of};
use names_dm::{Base, Triple};
use roles_dm::{
    BadTriple, Cause, GraphWithNumbers, Numbered, Roles, Words, datatypes_of, first_bad, graph_of,
    roles_of, words_of,
};
use std::alloc::{AllocError, Global};
use store_dm::Graph;

// A graph by numbers, with those of its triples in order, and what it says of its terms.
#[derive(Drop)]
struct ReadGraph {
    graph: Graph,
    numbers: Vec<Numbered>,
    words: Words,
    roles: Roles,
}

fn read_graph(alloc: Global, base: &Base, triples: &[Triple]) -> Result<ReadGraph, AllocError>
    requires { length triples.now ≤ 16777216 }
    ensures numbers { IfOk result (λ read. AreNumbers read.graph triples.now read.numbers.items) }
    ensures read { IfOk result (λ read. IsRead base.now read.graph read.words read.roles triples.now) }
{
    let GraphWithNumbers { graph, numbers } = graph_of(alloc, triples)?;
    let words = words_of(alloc, &graph)?;
    let datatypes = datatypes_of(alloc, &graph)?;
    let roles = roles_of(alloc, base, &graph, &words, &datatypes)?;
    Ok(ReadGraph {
        graph,
        numbers,
        words,
        roles,
    })
}

fn refusal_of(bad: BadTriple) -> InverseError
    ensures { (base : List ℕ) (G : List Statement) → TellsFirstBad base G (Some bad) → Refuses base G result }
{
    match bad.cause {
        Cause::Unexplained => InverseError::Unexplained(bad.place),
        Cause::TwoValues => InverseError::TwoValues(bad.place),
        Cause::TwoTables => InverseError::TwoTables(bad.place),
        Cause::NoKeyValue => InverseError::NoKeyValue(bad.place),
    }
}

// Whether no cause applies to a triple, or the first to which one applies.
fn check_triples(
    alloc: Global,
    base: &Base,
    triples: &[Triple],
    read: &ReadGraph,
) -> Result<(), InverseError>
    requires numbers { AreNumbers read.now.graph triples.now read.now.numbers.items }
    requires read { IsRead base.now read.now.graph read.now.words read.now.roles triples.now }
    ensures { MatchResult result (λ _. (i : ℕ) (fault : Fault) → ¬ Applies base.now triples.now i fault) (λ error. (error ≡ InverseError.Memory) ⊎ Refuses base.now triples.now error) }
{
    let found = first_bad(
        alloc,
        base,
        triples,
        read.numbers.as_slice(),
        &read.graph,
        &read.words,
        read.roles.as_slice(),
    )?;
    match found {
        None => Ok(()),
        Some(bad) => Err(refusal_of(bad)),
    }
}

// The tables of some triples, however many they are.
fn unlimited(alloc: Global, base: &Base, triples: &[Triple]) -> Result<GraphTables, InverseError>
    requires few { length triples.now ≤ 16777216 }
    requires some { triples.now ≢ [] }
    ensures { MatchResult result (λ made. StandsFor base.now triples.now (map plain_of made)) (λ error. (error ≡ InverseError.Memory) ⊎ Refuses base.now triples.now error) }
{
    let read = read_graph(alloc, base, triples)?;
    check_triples(alloc, base, triples, &read)?;
    let made = tables_of(alloc, base, &read.graph, &read.words, read.roles.as_slice())?;
    Ok(made)
}

// The tables, where they are within the limits.
fn limited(alloc: Global, made: GraphTables) -> Result<Tables, InverseError>
    requires { AreOfShape (map plain_of made) }
    ensures { MatchResult result (λ tables. (tables ≡ map plain_of made) × IsWithinLimits (map plain_of made)) (λ error. (error ≡ InverseError.Memory) ⊎ Exceeds error (map plain_of made)) }
{
    check_limits(made.as_slice())?;
    Ok(tables_from(alloc, made)?)
}

// The tables that a graph stands for, or why it is refused.
fn answer(alloc: Global, base: &Base, triples: &[Triple]) -> Result<Tables, InverseError>
    requires { length triples.now ≤ 16777216 }
    ensures ok { IfOk result (λ tables. StandsWithin base.now triples.now tables) }
    ensures err { IfErr result (λ error. (error ≡ InverseError.Memory) ⊎ Refuses base.now triples.now error) }
{
    naming_laws(base);
    if triples.is_empty() {
        return Err(InverseError::NoTables);
    }
    let made = unlimited(alloc, base, triples)?;
    limited(alloc, made)
}

/// The tables that the graph of the triples stands for: those of a layout with exactly these triples, in whatever order they
/// are, however often each stands, and whatever blank nodes there are. They are determined up to the order of each table's rows.
///
/// `NoTables` exactly where there are no triples. Else one of `Unexplained`, `TwoValues`, `TwoTables`, `NoKeyValue` exactly where
/// its triple, counted from 1, is the first to which one of these causes applies, and it is this cause; at most one applies to a
/// triple. Else `TooManyTables`, `TooManyColumns`, `TooManyRows` exactly where the tables are beyond this limit and not beyond
/// one before it. `Memory` for want of memory, which may come in the place of any other answer.
pub fn invert(alloc: Global, base: &Base, triples: &[Triple]) -> Result<Tables, InverseError>
    requires { length triples.now ≤ 16777216 }

    // The tables are what the graph stands for, and it stands for no others.
    ensures ok { IfOk result (λ tables. StandsWithin base.now triples.now tables) }
    ensures determined { IfOk result (λ tables. IsDetermined base.now triples.now tables) }

    // A refusal but for want of memory has its reason.
    ensures err { IfErr result (λ error. (error ≡ InverseError.Memory) ⊎ Refuses base.now triples.now error) }

    // Each comes where it should, or want of memory does.
    ensures accepted { (tables : List PlainTable) → StandsWithin base.now triples.now tables → IsOk result ⊎ IsErrOf result InverseError.Memory }
    ensures refused { (error : InverseError) → Refuses base.now triples.now error → IsErrOf result error ⊎ IsErrOf result InverseError.Memory }
    ensures beyond { (error : InverseError) (tables : List PlainTable) → StandsFor base.now triples.now tables → Exceeds error tables → IsErrOf result error ⊎ IsErrOf result InverseError.Memory }
{
    naming_laws(base);
    answer(alloc, base, triples)
}
