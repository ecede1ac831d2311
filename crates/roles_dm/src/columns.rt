// Which terms of a graph are classes and columns.
ghost use Rattle.std.specs.Prelude.{◌≡◌, ◌≤◌, ℕ, IfOk, List, Some, chars, length};
ghost use Rattle.names_dm.specs.Statements.{Statement};
ghost use Rattle.names_dm.specs.declared.term.Term.{Term as TheTerm};
ghost use Rattle.facts_dm.specs.Facts.{table_term};
ghost use Rattle.store_dm.specs.Terms.{term_at};
ghost use Rattle.roles_dm.specs.Numbers.{AreDatatypes, AreWords, IsGraphOf, IsNumberOf};
ghost use Rattle.roles_dm.specs.Naming.{column_term};
ghost use Rattle.roles_dm.specs.Roles.{TellsClass, TellsClassNumber, TellsColumn, TellsDomain, TellsOneKind, TellsProperty};

use crate::naming::{column_named, table_named};
use crate::numbers::{has, number_of, only_object};
use crate::role::ColumnRole;
use crate::words::{Datatypes, Words, kind_numbered};
use facts_dm::naming_laws;
use names_dm::{Base, ColumnName, Term, table_iri};
use std::alloc::{AllocError, Global};
use store_dm::Graph;
use value_dm::{Kind, Text};

/// The class whose IRI has the number; None where there is none. Refused for want of memory alone.
pub fn class_of(
    alloc: Global,
    base: &Base,
    graph: &Graph,
    words: &Words,
    number: u32,
) -> Result<Option<Text>, AllocError>
    requires low { 1 ≤ number }
    requires high { number ≤ length graph.now.terms }
    ensures { IfOk result (λ found. (G : List Statement) (x : TheTerm) → IsGraphOf graph.now G → AreWords graph.now words.now → term_at graph.now.terms number ≡ Some x → TellsClass base.now G x found) }
{
    if !has(graph, number, words.rdf_type, words.class) {
        return Ok(None);
    }
    table_named(alloc, base, graph.term_of(number))
}

// The number of the table's IRI, 0 where no triple holds it.
fn table_number(alloc: Global, base: &Base, graph: &Graph, table: &Text) -> Result<u32, AllocError>
    ensures { IfOk result (λ number. IsNumberOf graph.now (table_term base.now table.now) number) }
{
    let term = Term::Iri(table_iri(alloc, base, table.as_str())?);
    Ok(number_of(graph, &term))
}

// The number of the table's IRI, if the graph says that it is a class.
pub fn class_number(
    alloc: Global,
    base: &Base,
    graph: &Graph,
    words: &Words,
    table: &Text,
) -> Result<Option<u32>, AllocError>
    ensures { IfOk result (λ found. (G : List Statement) → IsGraphOf graph.now G → AreWords graph.now words.now → TellsClassNumber base.now graph.now G table.now found) }
{
    let number = table_number(alloc, base, graph, table)?;
    if has(graph, number, words.rdf_type, words.class) {
        Ok(Some(number))
    } else {
        Ok(None)
    }
}

// The kind whose datatype is the one range of the IRI of the number.
fn one_kind(graph: &Graph, words: &Words, datatypes: &Datatypes, number: u32) -> Option<Kind>
    ensures { (base : List ℕ) (G : List Statement) (i : List ℕ) → IsGraphOf graph.now G → AreWords graph.now words.now → AreDatatypes graph.now datatypes.now → term_at graph.now.terms number ≡ Some (Term.Iri i) → TellsOneKind base G i result }
{
    let range = only_object(graph, number, words.range)?;
    kind_numbered(datatypes, range)
}

// The number of the column's class, if the graph says that it is one, and that it is the column's domain.
fn stated_class(
    alloc: Global,
    base: &Base,
    graph: &Graph,
    words: &Words,
    number: u32,
    name: &ColumnName,
) -> Result<Option<u32>, AllocError>
    ensures { IfOk result (λ found. (G : List Statement) → IsGraphOf graph.now G → AreWords graph.now words.now → term_at graph.now.terms number ≡ Some (column_term base.now name.now) → TellsDomain base.now graph.now G name.now found) }
{
    match class_number(alloc, base, graph, words, &name.table)? {
        None => Ok(None),
        Some(class) => {
            if has(graph, number, words.domain, class) {
                Ok(Some(class))
            } else {
                Ok(None)
            }
        }
    }
}

// The column whose IRI has the number, if the graph says that it is a property with literals.
fn stated_property(
    alloc: Global,
    base: &Base,
    graph: &Graph,
    words: &Words,
    number: u32,
) -> Result<Option<ColumnName>, AllocError>
    requires low { 1 ≤ number }
    requires high { number ≤ length graph.now.terms }
    ensures { IfOk result (λ found. (G : List Statement) (x : TheTerm) → IsGraphOf graph.now G → AreWords graph.now words.now → term_at graph.now.terms number ≡ Some x → TellsProperty base.now G x found) }
{
    if !has(graph, number, words.rdf_type, words.datatype_property) {
        return Ok(None);
    }
    column_named(alloc, base, graph.term_of(number))
}

/// The column whose IRI has the number; None where there is none. Refused for want of memory alone.
pub fn column_of(
    alloc: Global,
    base: &Base,
    graph: &Graph,
    words: &Words,
    datatypes: &Datatypes,
    number: u32,
) -> Result<Option<ColumnRole>, AllocError>
    requires low { 1 ≤ number }
    requires high { number ≤ length graph.now.terms }
    ensures { IfOk result (λ found. (G : List Statement) (x : TheTerm) → IsGraphOf graph.now G → AreWords graph.now words.now → AreDatatypes graph.now datatypes.now → term_at graph.now.terms number ≡ Some x → TellsColumn base.now graph.now G x found) }
{
    naming_laws(base);
    let Some(name) = stated_property(alloc, base, graph, words, number)? else {
        return Ok(None);
    };
    let Some(class) = stated_class(alloc, base, graph, words, number, &name)? else {
        return Ok(None);
    };
    let Some(kind) = one_kind(graph, words, datatypes, number) else {
        return Ok(None);
    };
    Ok(Some(ColumnRole { name, class, kind }))
}
