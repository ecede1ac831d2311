ghost use Rattle.std.specs.Prelude.{◌≡◌, ◌++◌, [], ◌∷◌, IfOk, OnOk, chars, if◌then◌else◌};
ghost use Rattle.names_dm.specs.Apart.{NamesApart};
ghost use Rattle.names_dm.specs.Names.{column_iri, column_list, pairing, ref_iri, rel_iri, semicolon, table_iri};

use crate::base::Base;
use crate::iri::Iri;
use crate::names::RelName;
use crate::spelling::Spelling;
use std::alloc::{AllocError, Global};
use value_dm::{Names, Text};

/// The IRI of a table, which names its class: the base and the safe form of its name. Refused for want of memory alone.
#[tactic(auto, using(crate::proofs::NamesApart::names_apart))]
pub fn table_iri(alloc: Global, base: &Base, table: &str) -> Result<Iri, AllocError>
    ensures text { IfOk result (λ iri. iri ≡ table_iri base.now (chars table.now)) }
    ensures apart { OnOk result (NamesApart base.now) }
{
    Spelling::new(alloc, base)?
        .with_safe(table)?
        .into_iri(alloc)
}

/// The IRI of a column: its table's, `#` and the safe form of its name. Refused for want of memory alone.
#[tactic(auto, using(crate::proofs::NamesApart::names_apart))]
pub fn column_iri(alloc: Global, base: &Base, table: &str, column: &str) -> Result<Iri, AllocError>
    ensures text { IfOk result (λ iri. iri ≡ column_iri base.now record { table = chars table.now; column = chars column.now }) }
    ensures apart { OnOk result (NamesApart base.now) }
{
    Spelling::new(alloc, base)?
        .with_safe(table)?
        .with("#")?
        .with_safe(column)?
        .into_iri(alloc)
}

// What stands before a column in a list.
pub(crate) fn mark_before(first: bool) -> &'static str
    ensures { result.now ≡ (if first then [] else semicolon ∷ []) }
{
    if first { "" } else { ";" }
}

// The text with the safe names of the columns after it, semicolons between them.
fn with_columns(spelling: Spelling, columns: &Names) -> Result<Spelling, AllocError>
    ensures { IfOk result (λ longer. longer ≡ spelling ++ column_list columns.now) }
{
    let mut spelling = spelling;
    let mut first = true;
    for column in columns.as_slice() {
        spelling = spelling
            .with(mark_before(first))?
            .with_safe(column.as_str())?;
        first = false;
    }
    Ok(spelling)
}

/// The IRI of a reference: its table's, `#ref-` and the safe names of the key's columns in its order, semicolons between
/// them. Refused for want of memory alone.
#[tactic(auto, using(crate::proofs::NamesApart::names_apart))]
pub fn ref_iri(alloc: Global, base: &Base, table: &str, columns: &Names) -> Result<Iri, AllocError>
    ensures text { IfOk result (λ iri. iri ≡ ref_iri base.now record { table = chars table.now; columns = columns.now }) }
    ensures apart { OnOk result (NamesApart base.now) }
{
    let start = Spelling::new(alloc, base)?.with_safe(table)?.with("#ref-")?;
    with_columns(start, columns)?.into_iri(alloc)
}

// The text with a column and the one that it references after it, `=` between them.
fn with_pairing(spelling: Spelling, column: &Text, target: &Text) -> Result<Spelling, AllocError>
    ensures { IfOk result (λ longer. longer ≡ spelling ++ pairing column.now target.now) }
{
    spelling
        .with_safe(column.as_str())?
        .with("=")?
        .with_safe(target.as_str())
}

/// The IRI of a relation: its table's, `#rel-` and the two columns, each with `=` and the one that it references, a
/// semicolon between them. Refused for want of memory alone.
#[tactic(auto, using(crate::proofs::NamesApart::names_apart))]
pub fn rel_iri(alloc: Global, base: &Base, name: &RelName) -> Result<Iri, AllocError>
    ensures text { IfOk result (λ iri. iri ≡ rel_iri base.now name.now) }
    ensures apart { OnOk result (NamesApart base.now) }
{
    let start = Spelling::new(alloc, base)?
        .with_safe(name.table.as_str())?
        .with("#rel-")?;
    let left = with_pairing(start, &name.left, &name.left_target)?.with(";")?;
    with_pairing(left, &name.right, &name.right_target)?.into_iri(alloc)
}
