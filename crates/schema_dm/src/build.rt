ghost use Rattle.std.specs.Prelude.{◌≡◌, ◌≤◌, ◌<◌, ◌^◌, IfOk, All, length, map, slice_get, option_copied};
ghost use Rattle.std.specs.Option.{option_map};
ghost use Rattle.schema_dm.specs.Naming.{column_place};
ghost use Rattle.schema_dm.specs.Drafts.{table_place, target_of};
ghost use Rattle.schema_dm.specs.Schemas.{foreign_key_of, places_if_given, places_of, schema_of, table_of, target_places};

use crate::indexed::{IndexedDraft, IndexedDrafts};
use crate::keys::referenced_columns;
use crate::verdict::{MOST_COLUMNS, MOST_TABLES};
use crate::{ForeignDraft, ForeignKey, ForeignKeys, PlaceLists, Places, Table};
use std::alloc::{AllocError, Global};
use value_dm::{Names, Sequence, Text, TryCopy};

fn places_of(alloc: Global, draft: &IndexedDraft, names: &[Text]) -> Result<Places, AllocError>
    requires { length draft.now.columns ≤ MOST_COLUMNS }
    ensures { IfOk result (λ places. places ≡ places_of draft.now.columns names.now) }
{
    let mut places = Places::new(alloc);
    for name in names {
        places.push(column_place(draft, name))?;
    }
    Ok(places)
}

fn column_place(draft: &IndexedDraft, name: &Text) -> u32
    requires { length draft.now.columns ≤ MOST_COLUMNS }
    ensures { result ≡ column_place draft.now.columns name.now }
{
    draft.column_place(name) as u32
}

fn table_place(drafts: &IndexedDrafts, name: &Text) -> u32
    requires { length drafts.now ≤ MOST_TABLES }
    ensures { result ≡ table_place drafts.now name.now }
{
    drafts.table_place(name) as u32
}

fn place_lists_of(
    alloc: Global,
    draft: &IndexedDraft,
    lists: &[Names],
) -> Result<PlaceLists, AllocError>
    requires { length draft.now.columns ≤ MOST_COLUMNS }
    ensures { IfOk result (λ places. places ≡ map (places_of draft.now.columns) lists.now) }
{
    let mut places = PlaceLists::new(alloc);
    for names in lists {
        places.push(places_of(alloc, draft, names.as_slice())?)?;
    }
    Ok(places)
}

fn primary_of(
    alloc: Global,
    draft: &IndexedDraft,
    primaries: &[Names],
) -> Result<Option<Places>, AllocError>
    requires { length draft.now.columns ≤ MOST_COLUMNS }
    ensures { IfOk result (λ primary. primary ≡ option_map (places_of draft.now.columns) (slice_get primaries.now 0)) }
{
    match primaries.first() {
        None => Ok(None),
        Some(names) => Ok(Some(places_of(alloc, draft, names.as_slice())?)),
    }
}

fn places_if_given(
    alloc: Global,
    target: &IndexedDraft,
    names: Option<&Names>,
) -> Result<Places, AllocError>
    requires { length target.now.columns ≤ MOST_COLUMNS }
    ensures { IfOk result (λ places. places ≡ places_if_given target.now.columns (option_copied names.entry)) }
{
    match names {
        None => Ok(Places::new(alloc)),
        Some(names) => places_of(alloc, target, names.as_slice()),
    }
}

fn target_places(
    alloc: Global,
    drafts: &IndexedDrafts,
    key: &ForeignDraft,
) -> Result<Places, AllocError>
    requires { All (λ draft. length draft.columns ≤ MOST_COLUMNS) drafts.now }
    ensures { IfOk result (λ places. places ≡ target_places key.now (target_of drafts.now key.now)) }
{
    match drafts.target_of(key) {
        None => Ok(Places::new(alloc)),
        Some(target) => places_if_given(alloc, target, referenced_columns(key, target.draft())),
    }
}

fn foreign_key_of(
    alloc: Global,
    drafts: &IndexedDrafts,
    draft: &IndexedDraft,
    key: &ForeignDraft,
) -> Result<ForeignKey, AllocError>
    requires few_tables { length drafts.now ≤ MOST_TABLES }
    requires few_columns { All (λ draft. length draft.columns ≤ MOST_COLUMNS) drafts.now }
    requires own_columns { length draft.now.columns ≤ MOST_COLUMNS }
    ensures { IfOk result (λ made. made ≡ foreign_key_of drafts.now draft.now.columns key.now) }
{
    Ok(ForeignKey {
        columns: places_of(alloc, draft, key.columns.as_slice())?,
        target: table_place(drafts, &key.target),
        target_columns: target_places(alloc, drafts, key)?,
    })
}

fn foreign_keys_of(
    alloc: Global,
    drafts: &IndexedDrafts,
    draft: &IndexedDraft,
    foreign: &[ForeignDraft],
) -> Result<ForeignKeys, AllocError>
    requires few_tables { length drafts.now ≤ MOST_TABLES }
    requires few_columns { All (λ draft. length draft.columns ≤ MOST_COLUMNS) drafts.now }
    requires own_columns { length draft.now.columns ≤ MOST_COLUMNS }
    ensures { IfOk result (λ made. made ≡ map (foreign_key_of drafts.now draft.now.columns) foreign.now) }
{
    let mut keys = ForeignKeys::new(alloc);
    for key in foreign {
        keys.push(foreign_key_of(alloc, drafts, draft, key)?)?;
    }
    Ok(keys)
}

fn table_of(
    alloc: Global,
    drafts: &IndexedDrafts,
    draft: &IndexedDraft,
) -> Result<Table, AllocError>
    requires few_tables { length drafts.now ≤ MOST_TABLES }
    requires few_columns { All (λ draft. length draft.columns ≤ MOST_COLUMNS) drafts.now }
    requires own_columns { length draft.now.columns ≤ MOST_COLUMNS }
    ensures { IfOk result (λ table. table ≡ table_of drafts.now draft.now) }
{
    let declared = draft.draft();
    Ok(Table {
        name: declared.name.copy(alloc)?,
        columns: declared.columns.copy(alloc)?,
        primary: primary_of(alloc, draft, declared.primaries.as_slice())?,
        uniques: place_lists_of(alloc, draft, declared.uniques.as_slice())?,
        foreign: foreign_keys_of(alloc, drafts, draft, declared.foreign.as_slice())?,
    })
}

/// The tables of the drafts, with keys by places. Refused for want of memory alone.
pub fn tables_of(alloc: Global, drafts: &IndexedDrafts) -> Result<Sequence<Table>, AllocError>
    requires few_tables { length drafts.now ≤ MOST_TABLES }
    requires few_columns { All (λ draft. length draft.columns ≤ MOST_COLUMNS) drafts.now }
    ensures { IfOk result (λ tables. tables ≡ schema_of drafts.now) }
{
    let mut tables = Sequence::new(alloc);
    for draft in drafts.as_slice() {
        tables.push(table_of(alloc, drafts, draft)?)?;
    }
    Ok(tables)
}
