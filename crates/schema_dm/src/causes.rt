ghost use Rattle.std.specs.Prelude.{◌≡◌, ◌⊎◌, ◌↔◌, ◌<◌, ◌^◌, ◌++◌, IfOk, IsTrue, Any, chars, length, map, codes, option_copied};
ghost use Rattle.members_dm.specs.Elements.{Repeats};
ghost use Rattle.schema_dm.specs.Naming.{BeginsBadly, IsBadName, column_names, Declares};
ghost use Rattle.schema_dm.specs.Drafts.{AnyOwnList, ClashesWith, DeclaresTable};

use crate::index::Index;
use crate::indexed::{IndexedDraft, IndexedDrafts};
use crate::keyed::KeyedBy;
use crate::name_list::NameList;
use crate::{Column, ForeignDraft, TableDraft};
use std::alloc::{AllocError, Global};
use value_dm::{Names, Text, TryCopy};

/// Whether the name is empty or begins with the byte order mark. A text has scalar values alone.
pub fn is_bad_name(name: &Text) -> bool
    ensures { IsTrue result ↔ IsBadName name.now }
{
    begins_badly(name.as_str())
}

fn begins_badly(name: &str) -> bool
    ensures { IsTrue result ↔ BeginsBadly (chars name.now) }
{
    match name.chars().next() {
        None => true,
        Some(first) => first == '\u{feff}',
    }
}

/// Whether a column has a bad name.
pub fn some_bad_name(columns: &[Column]) -> bool
    ensures { IsTrue result ↔ Any (λ column. IsBadName column.name) columns.now }
{
    columns.iter().any(|column| is_bad_name(&column.name))
}

/// Whether `BadName` holds of the draft.
pub fn has_bad_name(draft: &TableDraft) -> bool
    ensures { IsTrue result ↔ (IsBadName draft.now.name ⊎ Any (λ column. IsBadName column.name) draft.now.columns) }
{
    is_bad_name(&draft.name) || some_bad_name(draft.columns.as_slice())
}

fn some_empty<T: KeyedBy<Names>>(items: &[T]) -> bool
    ensures { IsTrue result ↔ Any (λ item. length (T.key_of item) ≡ 0) items.now }
{
    items.iter().any(|item| item.key().len() == 0)
}

/// Whether `NoColumn` holds of the draft.
pub fn has_no_column(draft: &TableDraft) -> bool
    ensures { IsTrue result ↔ ((length draft.now.columns ≡ 0) ⊎ AnyOwnList (λ names. length names ≡ 0) draft.now) }
{
    draft.columns.len() == 0
        || some_empty(draft.primaries.as_slice())
        || some_empty(draft.uniques.as_slice())
        || some_empty(draft.foreign.as_slice())
}

fn some_repeats<T: KeyedBy<Names>>(alloc: Global, items: &[T]) -> Result<bool, AllocError>
    ensures { IfOk result (λ told. IsTrue told ↔ Any (λ item. Repeats (T.key_of item)) items.now) }
{
    for item in items {
        if names_repeat(alloc, item.key())? {
            return Ok(true);
        }
    }
    Ok(false)
}

fn names_repeat(alloc: Global, names: &Names) -> Result<bool, AllocError>
    ensures { IfOk result (λ told. IsTrue told ↔ Repeats names.now) }
{
    let index = Index::new(alloc, names.copy(alloc)?.into_vec())?;
    Ok(index.repeats())
}

fn own_list_repeats(alloc: Global, draft: &TableDraft) -> Result<bool, AllocError>
    ensures { IfOk result (λ told. IsTrue told ↔ AnyOwnList Repeats draft.now) }
{
    if some_repeats(alloc, draft.primaries.as_slice())? {
        return Ok(true);
    }
    if some_repeats(alloc, draft.uniques.as_slice())? {
        return Ok(true);
    }
    some_repeats(alloc, draft.foreign.as_slice())
}

/// Whether `DuplicateColumn` holds of the draft. Refused for want of memory alone.
pub fn has_duplicate_column(alloc: Global, draft: &IndexedDraft) -> Result<bool, AllocError>
    ensures { IfOk result (λ told. IsTrue told ↔ (Repeats (column_names draft.now.columns) ⊎ AnyOwnList Repeats draft.now)) }
{
    if draft.repeats_column() {
        return Ok(true);
    }
    own_list_repeats(alloc, draft.draft())
}

fn names_unknown(draft: &IndexedDraft, names: &Names) -> bool
    ensures { IsTrue result ↔ Any (λ name. ¬ Declares draft.now.columns name) names.now }
{
    names.as_slice().iter().any(|name| !draft.declares(name))
}

fn some_unknown<T: KeyedBy<Names>>(draft: &IndexedDraft, items: &[T]) -> bool
    ensures { IsTrue result ↔ Any (λ item. Any (λ name. ¬ Declares draft.now.columns name) (T.key_of item)) items.now }
{
    items.iter().any(|item| names_unknown(draft, item.key()))
}

fn lists_unknown(draft: &IndexedDraft, lists: &TableDraft) -> bool
    ensures { IsTrue result ↔ AnyOwnList (Any (λ name. ¬ Declares draft.now.columns name)) lists.now }
{
    some_unknown(draft, lists.primaries.as_slice())
        || some_unknown(draft, lists.uniques.as_slice())
        || some_unknown(draft, lists.foreign.as_slice())
}

/// Whether `UnknownColumn` holds of the draft.
pub fn has_unknown_column(draft: &IndexedDraft) -> bool
    ensures { IsTrue result ↔ AnyOwnList (Any (λ name. ¬ Declares draft.now.columns name)) draft.now }
{
    lists_unknown(draft, draft.draft())
}

/// Whether `UnknownTable` holds of the draft.
pub fn has_unknown_table(drafts: &IndexedDrafts, draft: &TableDraft) -> bool
    ensures { IsTrue result ↔ Any (λ key. ¬ DeclaresTable drafts.now key.target) draft.now.foreign }
{
    draft
        .foreign
        .as_slice()
        .iter()
        .any(|key| !drafts.declares(&key.target))
}

fn column_lists(alloc: Global, keys: &[ForeignDraft]) -> Result<Vec<NameList>, AllocError>
    ensures { IfOk result (λ lists. lists.items ≡ map (λ key. key.columns) keys.now) }
{
    let mut lists = Vec::with_capacity(alloc, keys.len())?;
    for key in keys {
        lists.push(NameList::from_names(alloc, &key.columns)?)?;
    }
    Ok(lists)
}

/// Whether `SameColumnsTwice` holds of the draft. Refused for want of memory alone.
pub fn has_columns_twice(alloc: Global, draft: &TableDraft) -> Result<bool, AllocError>
    ensures { IfOk result (λ told. IsTrue told ↔ Repeats (map (λ key. key.columns) draft.now.foreign)) }
{
    let index = Index::new(alloc, column_lists(alloc, draft.foreign.as_slice())?)?;
    Ok(index.repeats())
}

fn is_reference_name(name: &Text, column: &Text) -> bool
    ensures { IsTrue result ↔ (name.now ≡ codes "ref-" ++ column.now) }
{
    are_reference_bytes(name.as_str().as_bytes(), column.as_str().as_bytes())
}

fn are_reference_bytes(name: &[u8], column: &[u8]) -> bool
    ensures { IsTrue result ↔ (name.now ≡ codes "ref-" ++ column.now) }
{
    name.len() >= 4 && are_parts(&name[..4], &name[4..], column)
}

fn are_parts(prefix: &[u8], rest: &[u8], column: &[u8]) -> bool
    ensures { IsTrue result ↔ ((prefix.now ≡ codes "ref-") × (rest.now ≡ column.now)) }
{
    prefix == b"ref-".as_slice() && rest == column
}

fn has_reference_name(columns: &[Column], column: &Text) -> bool
    ensures { IsTrue result ↔ Declares columns.now (codes "ref-" ++ column.now) }
{
    columns
        .iter()
        .any(|other| is_reference_name(&other.name, column))
}

fn clashes(columns: &[Column], names: &[Text]) -> bool
    ensures { IsTrue result ↔ ClashesWith columns.now names.now }
{
    match names {
        [name] => has_reference_name(columns, name),
        _ => false,
    }
}

/// Whether `NameClash` holds of the draft.
pub fn has_clash(draft: &TableDraft) -> bool
    ensures { IsTrue result ↔ Any (λ key. ClashesWith draft.now.columns key.columns) draft.now.foreign }
{
    let columns = draft.columns.as_slice();
    draft
        .foreign
        .as_slice()
        .iter()
        .any(|key| clashes(columns, key.columns.as_slice()))
}
