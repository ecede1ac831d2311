use crate::{Column, Columns, ForeignKeys, PlaceLists, Places};
use std::alloc::{AllocError, Global};
use value_dm::{ExactEq, Text, TryCopy};

/// A table of a schema, with its keys by places. Places of columns count from 0.
#[derive(Drop, PartialEq, Eq)]
pub struct Table {
    pub name: Text,
    pub columns: Columns,
    /// The columns of the primary key, in the key's order.
    pub primary: Option<Places>,
    /// The columns of each UNIQUE constraint.
    pub uniques: PlaceLists,
    pub foreign: ForeignKeys,
}

impl TryCopy for Table {
    fn copy(&self, alloc: Global) -> Result<Table, AllocError> {
        Ok(Table {
            name: self.name.copy(alloc)?,
            columns: self.columns.copy(alloc)?,
            primary: self.primary.copy(alloc)?,
            uniques: self.uniques.copy(alloc)?,
            foreign: self.foreign.copy(alloc)?,
        })
    }
}

/// A foreign key by places.
#[derive(Drop, PartialEq, Eq)]
pub struct ForeignKey {
    /// The places of the referencing columns in the key's own table.
    pub columns: Places,
    /// The place of the referenced table in the schema, counted from 0.
    pub target: u32,
    /// The places of the referenced columns in the referenced table, in the order of `columns`.
    pub target_columns: Places,
}

impl TryCopy for ForeignKey {
    fn copy(&self, alloc: Global) -> Result<ForeignKey, AllocError> {
        Ok(ForeignKey {
            columns: self.columns.copy(alloc)?,
            target: self.target,
            target_columns: self.target_columns.copy(alloc)?,
        })
    }
}

/// The foreign keys of a table that is a binary relation, by their places in the table's `foreign`,
/// counted from 0.
#[derive(Clone, Copy, Debug, PartialEq, Eq)]
pub struct Binary {
    /// The foreign key on the first column.
    pub left: u32,
    /// The foreign key on the second column.
    pub right: u32,
}

/// A table without keys.
#[derive(Drop, PartialEq, Eq)]
pub struct ShapeTable {
    pub name: Text,
    pub columns: Columns,
}

impl TryCopy for ShapeTable {
    fn copy(&self, alloc: Global) -> Result<ShapeTable, AllocError> {
        Ok(ShapeTable {
            name: self.name.copy(alloc)?,
            columns: self.columns.copy(alloc)?,
        })
    }
}

impl ExactEq for ForeignKey {
    ghost use Rattle.std.proofs.Common.{rules};
    ghost use Rattle.std.proofs.lemmas.Grind.{common_steps};

    ghost decides = { Prim.search (rules, common_steps) };
}

impl ExactEq for Binary {
    ghost use Rattle.std.proofs.Common.{rules};
    ghost use Rattle.std.proofs.lemmas.Grind.{common_steps};

    ghost decides = { Prim.search (rules, common_steps) };
}

impl ExactEq for Table {
    ghost use Rattle.std.proofs.Common.{rules};
    ghost use Rattle.std.proofs.lemmas.Grind.{common_steps};
    ghost use Rattle.value_dm.specs.Equality.{lists_decide, numbers_decide};
    ghost use Rattle.schema_dm.specs.Sameness.{options_decide, tables_decide};

    ghost decides = { tables_decide numbers_decide
        (lists_decide {test = ⟦<Column as PartialEq>⟧.eq} (Prim.search (rules, common_steps)))
        (options_decide numbers_decide)
        (lists_decide numbers_decide)
        (lists_decide {test = ⟦<ForeignKey as PartialEq>⟧.eq} (Prim.search (rules, common_steps))) };
}

impl ExactEq for ShapeTable {
    ghost use Rattle.std.proofs.Common.{rules};
    ghost use Rattle.std.proofs.lemmas.Grind.{common_steps};
    ghost use Rattle.value_dm.specs.Equality.{lists_decide, numbers_decide};
    ghost use Rattle.schema_dm.specs.Sameness.{shape_tables_decide};

    ghost decides = { shape_tables_decide numbers_decide
        (lists_decide {test = ⟦<Column as PartialEq>⟧.eq} (Prim.search (rules, common_steps))) };
}
