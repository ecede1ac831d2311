// Which terms of a graph are references and relations.
ghost use Rattle.std.specs.Prelude.{◌≡◌, ◌≢◌, ◌↔◌, ◌≤◌, ℕ, IfOk, IsTrue, List, Some, length};
ghost use Rattle.members_dm.specs.Elements.{Repeats};
ghost use Rattle.members_dm.specs.Membership.{IsIn};
ghost use Rattle.layouts_dm.specs.Layouts.{column_named};
ghost use Rattle.roles_dm.specs.Naming.{column_term};
ghost use Rattle.names_dm.specs.Statements.{Statement};
ghost use Rattle.names_dm.specs.declared.term.Term.{Term as TheTerm};
ghost use Rattle.schema_dm.specs.Naming.{Name};
ghost use Rattle.store_dm.specs.Graphs.{GraphValue};
ghost use Rattle.store_dm.specs.Terms.{term_at};
ghost use Rattle.roles_dm.specs.Links.{AreColumns, HasKind, IsSole, TellsColumnNumber, TellsEnds, TellsLink, TellsOnlyClass, TellsReference, TellsRelation};
ghost use Rattle.roles_dm.specs.Numbers.{AreDatatypes, AreWords, HasNumbers, IsGraphOf, IsNumberOf};
ghost use Rattle.roles_dm.specs.Relations.{AreRelations, IsStated};

use crate::columns::{class_number, class_of, column_of};
use crate::naming::{reference_named, relation_named};
use crate::numbers::{has, number_of, only_object};
use crate::relations::Relations;
use crate::role::{LinkName, LinkRole};
use crate::words::{Datatypes, Words};
use facts_dm::naming_laws;
use names_dm::{Base, RefName, RelName, Term, column_iri};
use schema_dm::Index;
use std::alloc::{AllocError, Global};
use store_dm::Graph;
use value_dm::{Names, Text, TryCopy};

// The class that is the only object of the term of the number with the property, and the class's number.
fn only_class(
    alloc: Global,
    base: &Base,
    graph: &Graph,
    words: &Words,
    number: u32,
    property: u32,
) -> Result<Option<(u32, Text)>, AllocError>
    ensures { IfOk result (λ found. (G : List Statement) (i p : List ℕ) → IsGraphOf graph.now G → AreWords graph.now words.now → term_at graph.now.terms number ≡ Some (Term.Iri i) → IsNumberOf graph.now (Term.Iri p) property → TellsOnlyClass base.now graph.now G i p found) }
{
    naming_laws(base);
    let _count = graph.len();
    let Some(object) = only_object(graph, number, property) else {
        return Ok(None);
    };
    match class_of(alloc, base, graph, words, object)? {
        None => Ok(None),
        Some(table) => Ok(Some((object, table))),
    }
}

// The number of the column's IRI, 0 where no triple holds it.
fn column_iri_number(
    alloc: Global,
    base: &Base,
    graph: &Graph,
    table: &Text,
    column: &Text,
) -> Result<u32, AllocError>
    ensures { IfOk result (λ number. IsNumberOf graph.now (column_term base.now (column_named table.now column.now)) number) }
{
    let term = Term::Iri(column_iri(alloc, base, table.as_str(), column.as_str())?);
    Ok(number_of(graph, &term))
}

// The number of the column's IRI, if the graph says that it is a column of a class.
fn column_number(
    alloc: Global,
    base: &Base,
    graph: &Graph,
    words: &Words,
    datatypes: &Datatypes,
    table: &Text,
    column: &Text,
) -> Result<Option<u32>, AllocError>
    ensures { IfOk result (λ found. (G : List Statement) → IsGraphOf graph.now G → AreWords graph.now words.now → AreDatatypes graph.now datatypes.now → TellsColumnNumber base.now graph.now G table.now column.now found) }
{
    naming_laws(base);
    let number = column_iri_number(alloc, base, graph, table, column)?;
    if number == 0 {
        return Ok(None);
    }
    let Some(role) = column_of(alloc, base, graph, words, datatypes, number)? else {
        return Ok(None);
    };
    let _class = role.class;
    Ok(Some(number))
}

// Whether a name stands twice.
fn names_repeat(alloc: Global, names: &Names) -> Result<bool, AllocError>
    ensures { IfOk result (λ told. IsTrue told ↔ Repeats names.now) }
{
    let index = Index::new(alloc, names.copy(alloc)?.into_vec())?;
    Ok(index.repeats())
}

// Whether it is a column of the table.
fn is_column_of(
    alloc: Global,
    base: &Base,
    graph: &Graph,
    words: &Words,
    datatypes: &Datatypes,
    table: &Text,
    column: &Text,
) -> Result<bool, AllocError>
    ensures { IfOk result (λ told. (G : List Statement) → IsGraphOf graph.now G → AreWords graph.now words.now → AreDatatypes graph.now datatypes.now → IsTrue told ↔ HasKind base.now G table.now column.now) }
{
    match column_number(alloc, base, graph, words, datatypes, table, column)? {
        None => Ok(false),
        Some(_) => Ok(true),
    }
}

// Whether each is a column of the table.
fn all_columns(
    alloc: Global,
    base: &Base,
    graph: &Graph,
    words: &Words,
    datatypes: &Datatypes,
    name: &RefName,
) -> Result<bool, AllocError>
    ensures { IfOk result (λ told. (G : List Statement) → IsGraphOf graph.now G → AreWords graph.now words.now → AreDatatypes graph.now datatypes.now → IsTrue told ↔ ((c : Name) → IsIn c name.now.columns → HasKind base.now G name.now.table c)) }
{
    for column in name.columns.as_slice() {
        let told = is_column_of(alloc, base, graph, words, datatypes, &name.table, column)?;
        if !told {
            return Ok(false);
        }
    }
    Ok(true)
}

// Whether they are different columns of the table.
fn are_columns(
    alloc: Global,
    base: &Base,
    graph: &Graph,
    words: &Words,
    datatypes: &Datatypes,
    name: &RefName,
) -> Result<bool, AllocError>
    ensures { IfOk result (λ told. (G : List Statement) → IsGraphOf graph.now G → AreWords graph.now words.now → AreDatatypes graph.now datatypes.now → IsTrue told ↔ AreColumns base.now G name.now) }
{
    let repeat = names_repeat(alloc, &name.columns)?;
    if repeat {
        return Ok(false);
    }
    all_columns(alloc, base, graph, words, datatypes, name)
}

// The reference whose IRI has the number, which the graph says to be a property with nodes.
fn reference_of(
    alloc: Global,
    base: &Base,
    graph: &Graph,
    words: &Words,
    datatypes: &Datatypes,
    number: u32,
) -> Result<Option<LinkRole>, AllocError>
    requires low { 1 ≤ number }
    requires high { number ≤ length graph.now.terms }
    requires typed { HasNumbers graph.now number words.now.rdf_type words.now.object_property }
    ensures { IfOk result (λ found. (G : List Statement) (x : TheTerm) → IsGraphOf graph.now G → AreWords graph.now words.now → AreDatatypes graph.now datatypes.now → term_at graph.now.terms number ≡ Some x → TellsReference base.now graph.now G x found) }
{
    naming_laws(base);
    let Some(name) = reference_named(alloc, base, graph.term_of(number))? else {
        return Ok(None);
    };
    let Some(from) = class_number(alloc, base, graph, words, &name.table)? else {
        return Ok(None);
    };
    if !has(graph, number, words.domain, from) {
        return Ok(None);
    }
    let Some(to) = only_class(alloc, base, graph, words, number, words.range)? else {
        return Ok(None);
    };
    let good = are_columns(alloc, base, graph, words, datatypes, &name)?;
    if !good {
        return Ok(None);
    }
    Ok(Some(LinkRole {
        name: LinkName::Reference(name),
        from,
        to: to.0,
        left: 0,
        right: 0,
    }))
}

// Whether the relation has two different columns, its table is no class, and the graph says of no other IRI of a relation of this
// table that it is a property with nodes.
fn is_sole(
    alloc: Global,
    base: &Base,
    graph: &Graph,
    words: &Words,
    relations: &Relations,
    name: &RelName,
    number: u32,
) -> Result<bool, AllocError>
    requires { 1 ≤ number }
    ensures { IfOk result (λ told. (G : List Statement) → IsGraphOf graph.now G → AreWords graph.now words.now → AreRelations base.now graph.now G relations.now → IsStated base.now graph.now G name.now.table number
        → IsTrue told ↔ IsSole base.now graph.now G name.now number) }
{
    naming_laws(base);
    if name.left == name.right {
        return Ok(false);
    }
    if !relations.is_alone(&name.table, number) {
        return Ok(false);
    }
    match class_number(alloc, base, graph, words, &name.table)? {
        None => Ok(true),
        Some(_) => Ok(false),
    }
}

// The relation of the name, from the one class to the other, if the columns that it is named with are theirs.
fn with_ends(
    alloc: Global,
    base: &Base,
    graph: &Graph,
    words: &Words,
    datatypes: &Datatypes,
    name: RelName,
    from: (u32, Text),
    to: (u32, Text),
) -> Result<Option<LinkRole>, AllocError>
    ensures { IfOk result (λ found. (G : List Statement) → IsGraphOf graph.now G → AreWords graph.now words.now → AreDatatypes graph.now datatypes.now → TellsEnds base.now graph.now G name from to found) }
{
    let Some(left) = column_number(
        alloc,
        base,
        graph,
        words,
        datatypes,
        &from.1,
        &name.left_target,
    )?
    else {
        return Ok(None);
    };
    let Some(right) = column_number(
        alloc,
        base,
        graph,
        words,
        datatypes,
        &to.1,
        &name.right_target,
    )?
    else {
        return Ok(None);
    };
    Ok(Some(LinkRole {
        name: LinkName::Relation(name),
        from: from.0,
        to: to.0,
        left,
        right,
    }))
}

// The relation whose IRI has the number, which the graph says to be a property with nodes.
fn relation_of(
    alloc: Global,
    base: &Base,
    graph: &Graph,
    words: &Words,
    datatypes: &Datatypes,
    relations: &Relations,
    number: u32,
) -> Result<Option<LinkRole>, AllocError>
    requires low { 1 ≤ number }
    requires high { number ≤ length graph.now.terms }
    requires typed { HasNumbers graph.now number words.now.rdf_type words.now.object_property }
    ensures { IfOk result (λ found. (G : List Statement) (x : TheTerm) → IsGraphOf graph.now G → AreWords graph.now words.now → AreDatatypes graph.now datatypes.now → AreRelations base.now graph.now G relations.now
        → term_at graph.now.terms number ≡ Some x → TellsRelation base.now graph.now G x found) }
{
    naming_laws(base);
    let Some(name) = relation_named(alloc, base, graph.term_of(number))? else {
        return Ok(None);
    };
    let sole = is_sole(alloc, base, graph, words, relations, &name, number)?;
    if !sole {
        return Ok(None);
    }
    let Some(from) = only_class(alloc, base, graph, words, number, words.domain)? else {
        return Ok(None);
    };
    let Some(to) = only_class(alloc, base, graph, words, number, words.range)? else {
        return Ok(None);
    };
    with_ends(alloc, base, graph, words, datatypes, name, from, to)
}

/// The reference or relation whose IRI has the number; None where there is none. Refused for want of memory alone.
pub fn link_of(
    alloc: Global,
    base: &Base,
    graph: &Graph,
    words: &Words,
    datatypes: &Datatypes,
    relations: &Relations,
    number: u32,
) -> Result<Option<LinkRole>, AllocError>
    requires low { 1 ≤ number }
    requires high { number ≤ length graph.now.terms }
    ensures { IfOk result (λ found. (G : List Statement) (x : TheTerm) → IsGraphOf graph.now G → AreWords graph.now words.now → AreDatatypes graph.now datatypes.now → AreRelations base.now graph.now G relations.now
        → term_at graph.now.terms number ≡ Some x → TellsLink base.now graph.now G x found) }
{
    naming_laws(base);
    if !has(graph, number, words.rdf_type, words.object_property) {
        return Ok(None);
    }
    match reference_of(alloc, base, graph, words, datatypes, number)? {
        Some(role) => Ok(Some(role)),
        None => relation_of(alloc, base, graph, words, datatypes, relations, number),
    }
}
