ghost use Rattle.std.specs.Prelude.{◌≡◌, ◌↔◌, ◌<◌, ◌≤◌, ℕ, IsTrue, IfOk, IfSome, IfNone, length, slice_get};
ghost use Rattle.schema_dm.specs.Drafts.{Holds, IsRefusedFor, IsSound, NoneEarlier};
ghost use Rattle.schema_dm.specs.declared.draft.TableDraft.{TableDraft};

use crate::causes::{
    has_bad_name, has_clash, has_columns_twice, has_duplicate_column, has_no_column,
    has_unknown_column, has_unknown_table,
};
use crate::indexed::{IndexedDraft, IndexedDrafts};
use crate::keys::{has_kind_mismatch, has_no_key};
use crate::{SchemaCause, SchemaError, TableDraft};
use std::alloc::{AllocError, Global};

/// The most tables of a schema.
pub const MOST_TABLES: usize = 4096;

/// The most columns of a table.
pub const MOST_COLUMNS: usize = 256;

/// The causes that may hold of a table's draft, in the order in which they are told.
const TABLE_CAUSES: [SchemaCause; 12] = [
    SchemaCause::BadName,
    SchemaCause::NoColumn,
    SchemaCause::TooManyColumns,
    SchemaCause::DuplicateTable,
    SchemaCause::DuplicateColumn,
    SchemaCause::UnknownColumn,
    SchemaCause::UnknownTable,
    SchemaCause::TwoPrimaryKeys,
    SchemaCause::NotAKey,
    SchemaCause::KindMismatch,
    SchemaCause::SameColumnsTwice,
    SchemaCause::NameClash,
];

fn holds(
    alloc: Global,
    cause: SchemaCause,
    drafts: &IndexedDrafts,
    place: usize,
    draft: &IndexedDraft,
) -> Result<bool, AllocError>
    ensures { IfOk result (λ told. IsTrue told ↔ Holds cause drafts.now place draft.now) }
{
    let table = draft.draft();
    match cause {
        SchemaCause::NoTable => Ok(false),
        SchemaCause::TooManyTables => Ok(false),
        SchemaCause::BadName => Ok(has_bad_name(table)),
        SchemaCause::NoColumn => Ok(has_no_column(table)),
        SchemaCause::TooManyColumns => Ok(table.columns.len() > MOST_COLUMNS),
        SchemaCause::DuplicateTable => Ok(drafts.declares_before(place, &table.name)),
        SchemaCause::DuplicateColumn => has_duplicate_column(alloc, draft),
        SchemaCause::UnknownColumn => Ok(has_unknown_column(draft)),
        SchemaCause::UnknownTable => Ok(has_unknown_table(drafts, table)),
        SchemaCause::TwoPrimaryKeys => Ok(table.primaries.len() > 1),
        SchemaCause::NotAKey => has_no_key(alloc, drafts, table),
        SchemaCause::KindMismatch => Ok(has_kind_mismatch(drafts, draft)),
        SchemaCause::SameColumnsTwice => has_columns_twice(alloc, table),
        SchemaCause::NameClash => Ok(has_clash(table)),
    }
}

fn first_cause(
    alloc: Global,
    drafts: &IndexedDrafts,
    place: usize,
    draft: &IndexedDraft,
) -> Result<Option<SchemaCause>, AllocError>
    ensures holds { IfOk result (λ told. IfSome told (λ cause. Holds cause drafts.now place draft.now)) }
    ensures first { IfOk result (λ told. IfSome told (λ cause. NoneEarlier cause drafts.now place draft.now)) }
    ensures sound { IfOk result (λ told. IfNone told (IsSound drafts.now place draft.now)) }
{
    for cause in TABLE_CAUSES {
        if holds(alloc, cause, drafts, place, draft)? {
            return Ok(Some(cause));
        }
    }
    Ok(None)
}

/// Why the drafts, 1 to 4,096 of them, stand for no schema: the first table with a cause, and its first
/// cause. None exactly where no cause holds of one. Refused for want of memory alone.
pub fn first_error(alloc: Global, drafts: &IndexedDrafts) -> Result<Option<SchemaError>, AllocError>
    requires some { 0 < length drafts.now }
    requires few { length drafts.now ≤ MOST_TABLES }
    ensures refused { IfOk result (λ told. IfSome told (IsRefusedFor drafts.now)) }
    ensures sound { IfOk result (λ told. IfNone told ((place : ℕ) (draft : TableDraft) → slice_get drafts.now place ≡ Some draft → IsSound drafts.now place draft)) }
{
    for (place, draft) in drafts.as_slice().iter().enumerate() {
        match first_cause(alloc, drafts, place, draft)? {
            None => {}
            Some(cause) => {
                return Ok(Some(SchemaError {
                    cause,
                    table: place as u64 + 1,
                }));
            }
        }
    }
    Ok(None)
}

/// Why so many drafts stand for no schema. None exactly where there are 1 to 4,096.
pub fn count_error(drafts: &[TableDraft]) -> Option<SchemaError>
    ensures refused { IfSome result (IsRefusedFor drafts.now) }
    ensures some { IfNone result (0 < length drafts.now) }
    ensures few { IfNone result (length drafts.now ≤ MOST_TABLES) }
{
    if drafts.is_empty() {
        return Some(SchemaError {
            cause: SchemaCause::NoTable,
            table: 0,
        });
    }
    if drafts.len() > MOST_TABLES {
        return Some(SchemaError {
            cause: SchemaCause::TooManyTables,
            table: 0,
        });
    }
    None
}
