use crate::{Columns, ForeignDrafts, NameLists};
use std::alloc::{AllocError, Global};
use value_dm::{ExactEq, Kind, Names, Text, TryCopy};

/// A column definition (ISO/IEC 9075-2, 11.4): its name, its kind, and whether NOT NULL stands at it.
///
/// A primary key's columns aren't `not_null` by the key alone.
#[derive(Drop, PartialEq, Eq)]
pub struct Column {
    pub name: Text,
    pub kind: Kind,
    pub not_null: bool,
}

impl TryCopy for Column {
    fn copy(&self, alloc: Global) -> Result<Column, AllocError> {
        Ok(Column {
            name: self.name.copy(alloc)?,
            kind: self.kind,
            not_null: self.not_null,
        })
    }
}

impl ExactEq for Column {
    ghost use Rattle.std.proofs.Common.{rules};
    ghost use Rattle.std.proofs.lemmas.Grind.{common_steps};

    ghost decides = { Prim.search (rules, common_steps) };
}

/// A referential constraint definition (ISO/IEC 9075-2, 11.8) by names.
#[derive(Drop, PartialEq, Eq)]
pub struct ForeignDraft {
    /// The referencing columns.
    pub columns: Names,
    /// The name of the referenced table.
    pub target: Text,
    /// The referenced columns. None stands for the referenced table's primary key.
    pub target_columns: Option<Names>,
}

impl TryCopy for ForeignDraft {
    fn copy(&self, alloc: Global) -> Result<ForeignDraft, AllocError> {
        Ok(ForeignDraft {
            columns: self.columns.copy(alloc)?,
            target: self.target.copy(alloc)?,
            target_columns: self.target_columns.copy(alloc)?,
        })
    }
}

/// A table definition (ISO/IEC 9075-2, 11.3) with its keys by names, as it was declared.
#[derive(Drop, PartialEq, Eq)]
pub struct TableDraft {
    pub name: Text,
    pub columns: Columns,
    /// The column lists of the PRIMARY KEY constraints. A lawful draft has one at most.
    pub primaries: NameLists,
    /// The column lists of the UNIQUE constraints.
    pub uniques: NameLists,
    pub foreign: ForeignDrafts,
}

impl TryCopy for TableDraft {
    fn copy(&self, alloc: Global) -> Result<TableDraft, AllocError> {
        Ok(TableDraft {
            name: self.name.copy(alloc)?,
            columns: self.columns.copy(alloc)?,
            primaries: self.primaries.copy(alloc)?,
            uniques: self.uniques.copy(alloc)?,
            foreign: self.foreign.copy(alloc)?,
        })
    }
}

impl ExactEq for ForeignDraft {
    ghost use Rattle.value_dm.specs.Equality.{lists_decide, numbers_decide};
    ghost use Rattle.schema_dm.specs.Sameness.{foreign_drafts_decide, options_decide};

    ghost decides = { foreign_drafts_decide (lists_decide numbers_decide) numbers_decide (options_decide (lists_decide numbers_decide)) };
}

impl ExactEq for TableDraft {
    ghost use Rattle.std.proofs.Common.{rules};
    ghost use Rattle.std.proofs.lemmas.Grind.{common_steps};
    ghost use Rattle.value_dm.specs.Equality.{lists_decide, numbers_decide};
    ghost use Rattle.schema_dm.specs.Sameness.{foreign_drafts_decide, options_decide, table_drafts_decide};

    ghost decides = { table_drafts_decide numbers_decide
        (lists_decide {test = ⟦<Column as PartialEq>⟧.eq} (Prim.search (rules, common_steps)))
        (lists_decide (lists_decide numbers_decide))
        (lists_decide (foreign_drafts_decide (lists_decide numbers_decide) numbers_decide (options_decide (lists_decide numbers_decide)))) };
}
