// The names that the terms of a graph tell.
ghost use Rattle.std.specs.Prelude.{◌≡◌, ◌≢◌, IfOk, List, ℕ, Option};
ghost use Rattle.std.specs.List.{All};
ghost use Rattle.value_dm.specs.Texts.{IsText};
ghost use Rattle.roles_dm.specs.Naming.{AreTexts, NamesColumn, NamesReference, NamesRelation, NamesTable};

use names_dm::{
    Base, ColumnName, Iri, RefName, RelName, Term, read_column_iri, read_ref_iri, read_rel_iri,
    read_table_iri,
};
use std::alloc::{AllocError, Global};
use value_dm::{Names, Text};

/// The table whose IRI the term is. Refused for want of memory alone.
pub fn table_named(alloc: Global, base: &Base, term: &Term) -> Result<Option<Text>, AllocError>
    ensures { IfOk result (NamesTable base.now term.now) }
{
    let Term::Iri(iri) = term else {
        return Ok(None);
    };
    let Some(table) = read_table_iri(alloc, base, iri)? else {
        return Ok(None);
    };
    let _characters = table.as_str();
    Ok(Some(table))
}

/// The column whose IRI the term is. Refused for want of memory alone.
pub fn column_named(
    alloc: Global,
    base: &Base,
    term: &Term,
) -> Result<Option<ColumnName>, AllocError>
    ensures { IfOk result (NamesColumn base.now term.now) }
{
    let Term::Iri(iri) = term else {
        return Ok(None);
    };
    let Some(name) = read_column_iri(alloc, base, iri)? else {
        return Ok(None);
    };
    let _table_characters = name.table.as_str();
    let _column_characters = name.column.as_str();
    Ok(Some(name))
}

// Its texts are those of names.
fn are_texts(names: &Names)
    ensures { All IsText names.now }
{
    for name in names.as_slice() {
        let _characters = name.as_str();
    }
}

// The reference whose IRI it is.
fn reference_in(alloc: Global, base: &Base, iri: &Iri) -> Result<Option<RefName>, AllocError>
    ensures { IfOk result (NamesReference base.now (Term.Iri iri.now)) }
{
    let Some(name) = read_ref_iri(alloc, base, iri)? else {
        return Ok(None);
    };
    let _characters = name.table.as_str();
    are_texts(&name.columns);
    Ok(Some(name))
}

/// The reference whose IRI the term is. Refused for want of memory alone.
pub fn reference_named(
    alloc: Global,
    base: &Base,
    term: &Term,
) -> Result<Option<RefName>, AllocError>
    ensures { IfOk result (NamesReference base.now term.now) }
{
    match term {
        Term::Iri(iri) => reference_in(alloc, base, iri),
        _ => Ok(None),
    }
}

// Its texts are those of names.
fn are_relation_texts(name: &RelName)
    ensures { AreTexts name.now }
{
    let _table = name.table.as_str();
    let _left = name.left.as_str();
    let _left_target = name.left_target.as_str();
    let _right = name.right.as_str();
    let _right_target = name.right_target.as_str();
}

/// The relation whose IRI the term is. Refused for want of memory alone.
pub fn relation_named(
    alloc: Global,
    base: &Base,
    term: &Term,
) -> Result<Option<RelName>, AllocError>
    ensures { IfOk result (NamesRelation base.now term.now) }
{
    let Term::Iri(iri) = term else {
        return Ok(None);
    };
    let Some(name) = read_rel_iri(alloc, base, iri)? else {
        return Ok(None);
    };
    are_relation_texts(&name);
    Ok(Some(name))
}
