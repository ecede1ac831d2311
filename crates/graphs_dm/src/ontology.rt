ghost use Rattle.std.specs.Prelude.{◌≡◌, ◌<◌, ◌++◌, IfSome, OnOk, Some, length};
ghost use Rattle.schema_dm.specs.Relations.{IsBinaryRelation};
ghost use Rattle.schema_dm.specs.Schemas.{IsTable};
ghost use Rattle.graphs_dm.specs.Heads.{iri_line, property_lines};
ghost use Rattle.graphs_dm.specs.Levels.{class_level, column_level, columns_level, ontology_level, ontology_table, reference_level, references_level, relation_level, text_of};
ghost use Rattle.graphs_dm.specs.Plans.{AreBinaries};

use crate::plan::Plan;
use crate::relations::{relation_iri, target_of};
use crate::triples::key_names;
use facts_dm::Word;
use keys_dm::table_of;
use names_dm::{Base, Iri, Term, Triple, column_iri, ref_iri, table_iri};
use ntriples_dm::triple_text;
use schema_dm::{Binary, Column, ForeignKey, Table};
use std::alloc::{AllocError, Global};
use table_csv::Database;
use value_dm::TryCopy;

// Appends the line of a triple of IRIs.
#[tactic(auto, unfolding(crate::specs::Heads::iri_line))]
fn append_iris(
    alloc: Global,
    subject: &Iri,
    predicate: Word,
    object: Iri,
    out: &mut Vec<u8>,
) -> Result<(), AllocError>
    ensures { OnOk result (out.new.items ≡ out.old.items ++ iri_line subject.now predicate object) }
{
    let subject = Term::Iri(subject.copy(alloc)?);
    let triple = Triple::new(subject, predicate.iri(alloc)?, Term::Iri(object)).unwrap();
    let line = triple_text(alloc, &triple)?;
    out.extend_from_slice(line.as_bytes())
}

// Appends the lines that a property is one of this sort, of its domain and of its range.
#[tactic(auto, unfolding(crate::specs::Heads::property_lines))]
fn append_property(
    alloc: Global,
    property: &Iri,
    sort: Word,
    domain: Iri,
    range: Iri,
    out: &mut Vec<u8>,
) -> Result<(), AllocError>
    ensures { OnOk result (out.new.items ≡ out.old.items ++ property_lines property.now sort domain range) }
{
    append_iris(alloc, property, Word::RdfType, sort.iri(alloc)?, out)?;
    append_iris(alloc, property, Word::RdfsDomain, domain, out)?;
    append_iris(alloc, property, Word::RdfsRange, range, out)
}

fn append_column(
    alloc: Global,
    base: &Base,
    table: &Table,
    column: &Column,
    out: &mut Vec<u8>,
) -> Result<(), AllocError>
    ensures { OnOk result (out.new.items ≡ out.old.items ++ text_of base.now (column_level base.now table.now (Some column.now))) }
{
    let property = column_iri(alloc, base, table.name.as_str(), column.name.as_str())?;
    let domain = table_iri(alloc, base, table.name.as_str())?;
    let range = Word::Datatype(column.kind).iri(alloc)?;
    append_property(
        alloc,
        &property,
        Word::OwlDatatypeProperty,
        domain,
        range,
        out,
    )
}

fn append_columns(
    alloc: Global,
    base: &Base,
    table: &Table,
    out: &mut Vec<u8>,
) -> Result<(), AllocError>
    ensures { OnOk result (out.new.items ≡ out.old.items ++ text_of base.now (columns_level base.now table.now)) }
{
    for column in table.columns.as_slice() {
        append_column(alloc, base, table, column, out)?;
    }
    Ok(())
}

fn append_reference(
    alloc: Global,
    base: &Base,
    database: &Database,
    table: &Table,
    key: &ForeignKey,
    out: &mut Vec<u8>,
) -> Result<(), AllocError>
    requires target { key.now.target < length database.now.tables }
    requires columns { 0 < length key.now.columns }
    ensures { OnOk result (out.new.items ≡ out.old.items ++ text_of base.now (reference_level base.now database.now.tables table.now (Some key.now))) }
{
    let names = key_names(alloc, table, key)?;
    let property = ref_iri(alloc, base, table.name.as_str(), &names)?;
    let domain = table_iri(alloc, base, table.name.as_str())?;
    let range = table_iri(alloc, base, table_of(database, key.target).name.as_str())?;
    append_property(
        alloc,
        &property,
        Word::OwlObjectProperty,
        domain,
        range,
        out,
    )
}

fn append_references(
    alloc: Global,
    base: &Base,
    database: &Database,
    table: &Table,
    out: &mut Vec<u8>,
) -> Result<(), AllocError>
    requires { IsTable database.now.tables table.now }
    ensures { OnOk result (out.new.items ≡ out.old.items ++ text_of base.now (references_level base.now database.now.tables table.now)) }
{
    for key in table.foreign.as_slice() {
        append_reference(alloc, base, database, table, key, out)?;
    }
    Ok(())
}

fn append_class(
    alloc: Global,
    base: &Base,
    database: &Database,
    table: &Table,
    out: &mut Vec<u8>,
) -> Result<(), AllocError>
    requires { IsTable database.now.tables table.now }
    ensures { OnOk result (out.new.items ≡ out.old.items ++ text_of base.now (class_level base.now database.now.tables table.now)) }
{
    let class = table_iri(alloc, base, table.name.as_str())?;
    append_iris(
        alloc,
        &class,
        Word::RdfType,
        Word::OwlClass.iri(alloc)?,
        out,
    )?;
    append_columns(alloc, base, table, out)?;
    append_references(alloc, base, database, table, out)
}

fn append_relation(
    alloc: Global,
    base: &Base,
    database: &Database,
    t: u32,
    sides: Binary,
    out: &mut Vec<u8>,
) -> Result<(), AllocError>
    requires table { t < length database.now.tables }
    requires relation { IsBinaryRelation database.now.tables t sides }
    ensures { OnOk result (out.new.items ≡ out.old.items ++ text_of base.now (relation_level base.now database.now.tables t sides)) }
{
    let property = relation_iri(alloc, base, database, t, sides)?;
    let left = target_of(database, t, sides.left);
    let right = target_of(database, t, sides.right);
    let domain = table_iri(alloc, base, left.name.as_str())?;
    let range = table_iri(alloc, base, right.name.as_str())?;
    append_property(
        alloc,
        &property,
        Word::OwlObjectProperty,
        domain,
        range,
        out,
    )
}

fn append_table(
    alloc: Global,
    base: &Base,
    database: &Database,
    relation: Option<Binary>,
    t: u32,
    out: &mut Vec<u8>,
) -> Result<(), AllocError>
    requires table { t < length database.now.tables }
    requires relation { IfSome relation (IsBinaryRelation database.now.tables t) }
    ensures { OnOk result (out.new.items ≡ out.old.items ++ text_of base.now (ontology_table base.now database.now.tables t relation)) }
{
    match relation {
        None => append_class(alloc, base, database, table_of(database, t), out),
        Some(sides) => append_relation(alloc, base, database, t, sides, out),
    }
}

/// Appends the lines of the ontology of a graph. Refused for want of memory alone.
pub fn append_ontology(
    alloc: Global,
    base: &Base,
    database: &Database,
    plan: &Plan,
    out: &mut Vec<u8>,
) -> Result<(), AllocError>
    requires { AreBinaries database.now.tables plan.now }
    ensures { OnOk result (out.new.items ≡ out.old.items ++ text_of base.now (ontology_level base.now database.now plan.now)) }
{
    for t in 0..database.schema().tables().len() {
        let relation = plan.relation_at(t as u32);
        append_table(alloc, base, database, relation, t as u32, out)?;
    }
    Ok(())
}
