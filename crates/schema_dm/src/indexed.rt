ghost use Rattle.std.specs.Prelude.{◌≡◌, ◌≤◌, ◌↔◌, List, Any, IfOk, IsPermutation, IsTrue, length, map, option_copied, take};
ghost use Rattle.members_dm.specs.Elements.{Repeats};
ghost use Rattle.schema_dm.specs.Naming.{Declares, Name, column_names, column_place};
ghost use Rattle.schema_dm.specs.Drafts.{AnyUniqueList, DeclaresTable, table_place, target_of};
ghost use Rattle.schema_dm.specs.Indexed.{AreSortedForms, IsSortedForm};

use crate::index::Index;
use crate::name_list::NameList;
use crate::{Column, Drafts, ForeignDraft, TableDraft};
use std::alloc::{AllocError, Global};
use std::marker::Model;
use value_dm::{Names, Text, TryCopy};

/// A draft whose columns and unique lists are found by halving. Contracts see the draft.
#[derive(Drop)]
pub struct IndexedDraft {
    draft: TableDraft,
    columns: Index<Text>,
    primaries: Index<NameList>,
    uniques: Index<NameList>,
}

impl Model for IndexedDraft {
    ghost use Rattle.std.specs.Prelude.{◌≡◌};
    ghost use Rattle.schema_dm.specs.declared.draft.TableDraft.{TableDraft as Drafted};
    ghost use Rattle.schema_dm.specs.Indexed.{AreSortedForms};
    ghost use Rattle.schema_dm.specs.Naming.{column_names};

    ghost Value = { Drafted };

    ghost view = { λ indexed. indexed.draft };

    ghost invariant = { λ indexed. (indexed.columns ≡ column_names indexed.draft.columns)
        × AreSortedForms indexed.draft.primaries indexed.primaries × AreSortedForms indexed.draft.uniques indexed.uniques };
}

fn column_names(alloc: Global, columns: &[Column]) -> Result<Vec<Text>, AllocError>
    ensures { IfOk result (λ names. names.items ≡ column_names columns.now) }
{
    let mut names = Vec::with_capacity(alloc, columns.len())?;
    for column in columns {
        names.push(column.name.copy(alloc)?)?;
    }
    Ok(names)
}

fn sorted_lists(alloc: Global, lists: &[Names]) -> Result<Vec<NameList>, AllocError>
    ensures { IfOk result (λ sorted. AreSortedForms lists.now sorted.items) }
{
    let mut sorted = Vec::with_capacity(alloc, lists.len())?;
    for names in lists {
        sorted.push(NameList::sorted(alloc, names)?)?;
    }
    Ok(sorted)
}

// Whether one of the lists has these names in some order.
fn has_reordered(lists: &Index<NameList>, sorted: &NameList) -> bool
    ensures { (names : List Name) (all : List (List Name)) → IsSortedForm names sorted.now → AreSortedForms all lists.now → IsTrue result ↔ Any (IsPermutation names) all }
{
    match lists.place(sorted) {
        None => false,
        Some(_) => true,
    }
}

impl IndexedDraft {
    /// The draft with its indexes. Refused for want of memory alone.
    pub fn new(alloc: Global, draft: TableDraft) -> Result<IndexedDraft, AllocError>
        ensures { IfOk result (λ indexed. indexed ≡ draft) }
    {
        let columns = Index::new(alloc, column_names(alloc, draft.columns.as_slice())?)?;
        let primaries = Index::new(alloc, sorted_lists(alloc, draft.primaries.as_slice())?)?;
        let uniques = Index::new(alloc, sorted_lists(alloc, draft.uniques.as_slice())?)?;
        Ok(IndexedDraft {
            draft,
            columns,
            primaries,
            uniques,
        })
    }

    /// The draft.
    pub fn draft(&self) -> &TableDraft
        ensures { result.now ≡ self.now }
    {
        &self.draft
    }

    /// The place of the first column of the name, or the number of columns where there is none.
    pub fn column_place(&self, name: &Text) -> usize
        ensures place { result ≡ column_place self.now.columns name.now }
        ensures within { result ≤ length self.now.columns }
    {
        self.columns.place(name).unwrap_or(self.draft.columns.len())
    }

    /// Whether a column of the name is declared.
    pub fn declares(&self, name: &Text) -> bool
        ensures { IsTrue result ↔ Declares self.now.columns name.now }
    {
        match self.columns.place(name) {
            None => false,
            Some(_) => true,
        }
    }

    /// Whether two columns have one name.
    pub fn repeats_column(&self) -> bool
        ensures { IsTrue result ↔ Repeats (column_names self.now.columns) }
    {
        self.columns.repeats()
    }

    /// Whether the names are in some order the columns of a primary or unique key. Refused for want of
    /// memory alone.
    pub fn has_unique(&self, alloc: Global, names: &Names) -> Result<bool, AllocError>
        ensures { IfOk result (λ found. IsTrue found ↔ AnyUniqueList (IsPermutation names.now) self.now) }
    {
        let sorted = NameList::sorted(alloc, names)?;
        if has_reordered(&self.primaries, &sorted) {
            return Ok(true);
        }
        Ok(has_reordered(&self.uniques, &sorted))
    }
}

/// Drafts that are found by their names by halving. Contracts see the drafts.
#[derive(Drop)]
pub struct IndexedDrafts {
    drafts: Vec<IndexedDraft>,
    names: Index<Text>,
}

impl Model for IndexedDrafts {
    ghost use Rattle.std.specs.Prelude.{◌≡◌, List, map};
    ghost use Rattle.schema_dm.specs.declared.draft.TableDraft.{TableDraft as Drafted};

    ghost Value = { List Drafted };

    ghost view = { λ indexed. indexed.drafts.items };

    ghost invariant = { λ indexed. indexed.names ≡ map (λ draft. draft.name) indexed.drafts.items };
}

fn table_names(alloc: Global, drafts: &[TableDraft]) -> Result<Vec<Text>, AllocError>
    ensures { IfOk result (λ names. names.items ≡ map (λ draft. draft.name) drafts.now) }
{
    let mut names = Vec::with_capacity(alloc, drafts.len())?;
    for draft in drafts {
        names.push(draft.name.copy(alloc)?)?;
    }
    Ok(names)
}

fn index_each(alloc: Global, drafts: Drafts) -> Result<Vec<IndexedDraft>, AllocError>
    ensures { IfOk result (λ indexed. indexed.items ≡ drafts) }
{
    let mut indexed = Vec::with_capacity(alloc, drafts.len())?;
    for draft in drafts.into_vec() {
        indexed.push(IndexedDraft::new(alloc, draft)?)?;
    }
    Ok(indexed)
}

impl IndexedDrafts {
    /// The drafts with their indexes. Refused for want of memory alone.
    pub fn new(alloc: Global, drafts: Drafts) -> Result<IndexedDrafts, AllocError>
        ensures { IfOk result (λ indexed. indexed ≡ drafts) }
    {
        let names = Index::new(alloc, table_names(alloc, drafts.as_slice())?)?;
        Ok(IndexedDrafts {
            drafts: index_each(alloc, drafts)?,
            names,
        })
    }

    /// The drafts in order.
    pub fn as_slice(&self) -> &[IndexedDraft]
        ensures { result.now ≡ self.now }
    {
        self.drafts.as_slice()
    }

    /// The place of the first draft of the name, or the number of drafts where there is none.
    pub fn table_place(&self, name: &Text) -> usize
        ensures place { result ≡ table_place self.now name.now }
        ensures within { result ≤ length self.now }
    {
        self.names
            .place(name)
            .unwrap_or(self.drafts.as_slice().len())
    }

    /// Whether a draft has the name.
    pub fn declares(&self, name: &Text) -> bool
        ensures { IsTrue result ↔ DeclaresTable self.now name.now }
    {
        match self.names.place(name) {
            None => false,
            Some(_) => true,
        }
    }

    /// Whether a draft before the place, counted from 0, has the name.
    pub fn declares_before(&self, place: usize, name: &Text) -> bool
        ensures { IsTrue result ↔ DeclaresTable (take place self.now) name.now }
    {
        match self.names.place(name) {
            None => false,
            Some(first) => first < place,
        }
    }

    /// The draft that the foreign key references: the first of the name.
    pub fn target_of(&self, key: &ForeignDraft) -> Option<&IndexedDraft>
        ensures { option_copied result ≡ target_of self.now key.now }
    {
        self.drafts.get(self.table_place(&key.target))
    }
}
