ghost use Rattle.std.specs.Prelude.{◌≡◌, ◌≢◌, ◌⊎◌, ◌↔◌, IfOk, IsTrue, Any, length, option_copied};
ghost use Rattle.std.specs.List.Sorted.{IsPermutation};
ghost use Rattle.schema_dm.specs.Drafts.{AnyKindsDiffer, AnyUniqueList, AreNoKey, KindsDiffer, KindsOfKeyDiffer, ReferencesNoKey, ReferencesOtherKinds, kind_of_name, referenced_columns, target_of};

use crate::indexed::{IndexedDraft, IndexedDrafts};
use crate::{ForeignDraft, TableDraft};
use std::alloc::{AllocError, Global};
use value_dm::{Kind, Names, Text};

/// The names of the referenced columns: as given, or else the target's first primary key.
pub fn referenced_columns<'a>(key: &'a ForeignDraft, target: &'a TableDraft) -> Option<&'a Names>
    ensures { option_copied result ≡ referenced_columns key.now target.now }
{
    match &key.target_columns {
        Some(names) => Some(names),
        None => target.primaries.as_slice().first(),
    }
}

fn are_no_key(
    alloc: Global,
    columns: &Names,
    target: &IndexedDraft,
    names: &Names,
) -> Result<bool, AllocError>
    ensures { IfOk result (λ told. IsTrue told ↔ ((length names.now ≢ length columns.now) ⊎ (¬ AnyUniqueList (IsPermutation names.now) target.now))) }
{
    if names.len() != columns.len() {
        return Ok(true);
    }
    Ok(!target.has_unique(alloc, names)?)
}

fn is_no_key(alloc: Global, key: &ForeignDraft, target: &IndexedDraft) -> Result<bool, AllocError>
    ensures { IfOk result (λ told. IsTrue told ↔ AreNoKey key.now.columns target.now (referenced_columns key.now target.now)) }
{
    match referenced_columns(key, target.draft()) {
        None => Ok(true),
        Some(names) => are_no_key(alloc, &key.columns, target, names),
    }
}

fn references_no_key(
    alloc: Global,
    drafts: &IndexedDrafts,
    key: &ForeignDraft,
) -> Result<bool, AllocError>
    ensures { IfOk result (λ told. IsTrue told ↔ ReferencesNoKey key.now (target_of drafts.now key.now)) }
{
    match drafts.target_of(key) {
        None => Ok(false),
        Some(target) => is_no_key(alloc, key, target),
    }
}

fn any_no_key(
    alloc: Global,
    drafts: &IndexedDrafts,
    keys: &[ForeignDraft],
) -> Result<bool, AllocError>
    ensures { IfOk result (λ told. IsTrue told ↔ Any (λ key. ReferencesNoKey key (target_of drafts.now key)) keys.now) }
{
    for key in keys {
        if references_no_key(alloc, drafts, key)? {
            return Ok(true);
        }
    }
    Ok(false)
}

/// Whether `NotAKey` holds of the draft. Refused for want of memory alone.
pub fn has_no_key(
    alloc: Global,
    drafts: &IndexedDrafts,
    draft: &TableDraft,
) -> Result<bool, AllocError>
    ensures { IfOk result (λ told. IsTrue told ↔ Any (λ key. ReferencesNoKey key (target_of drafts.now key)) draft.now.foreign) }
{
    any_no_key(alloc, drafts, draft.foreign.as_slice())
}

fn kind_of_name(draft: &IndexedDraft, name: &Text) -> Option<Kind>
    ensures { result ≡ kind_of_name draft.now.columns name.now }
{
    draft
        .draft()
        .columns
        .as_slice()
        .get(draft.column_place(name))
        .map(|column| column.kind)
}

fn kinds_differ(kind: Option<Kind>, other: Option<Kind>) -> bool
    ensures { IsTrue result ↔ KindsDiffer kind other }
{
    match (kind, other) {
        (Some(kind), Some(other)) => kind != other,
        _ => false,
    }
}

fn any_kinds_differ(
    draft: &IndexedDraft,
    names: &[Text],
    target: &IndexedDraft,
    targets: &[Text],
) -> bool
    ensures { IsTrue result ↔ AnyKindsDiffer draft.now.columns names.now target.now.columns targets.now }
{
    for (i, name) in names.iter().enumerate() {
        if i >= targets.len() {
            return false;
        }
        if kinds_differ(kind_of_name(draft, name), kind_of_name(target, &targets[i])) {
            return true;
        }
    }
    false
}

fn has_other_kinds(draft: &IndexedDraft, key: &ForeignDraft, target: &IndexedDraft) -> bool
    ensures { IsTrue result ↔ KindsOfKeyDiffer draft.now.columns key.now.columns target.now.columns (referenced_columns key.now target.now) }
{
    match referenced_columns(key, target.draft()) {
        None => false,
        Some(names) => any_kinds_differ(draft, key.columns.as_slice(), target, names.as_slice()),
    }
}

fn references_other_kinds(drafts: &IndexedDrafts, draft: &IndexedDraft, key: &ForeignDraft) -> bool
    ensures { IsTrue result ↔ ReferencesOtherKinds draft.now.columns key.now (target_of drafts.now key.now) }
{
    match drafts.target_of(key) {
        None => false,
        Some(target) => has_other_kinds(draft, key, target),
    }
}

fn any_other_kinds(drafts: &IndexedDrafts, draft: &IndexedDraft, keys: &[ForeignDraft]) -> bool
    ensures { IsTrue result ↔ Any (λ key. ReferencesOtherKinds draft.now.columns key (target_of drafts.now key)) keys.now }
{
    keys.iter()
        .any(|key| references_other_kinds(drafts, draft, key))
}

/// Whether `KindMismatch` holds of the draft.
pub fn has_kind_mismatch(drafts: &IndexedDrafts, draft: &IndexedDraft) -> bool
    ensures { IsTrue result ↔ Any (λ key. ReferencesOtherKinds draft.now.columns key (target_of drafts.now key)) draft.now.foreign }
{
    any_other_kinds(drafts, draft, draft.draft().foreign.as_slice())
}
