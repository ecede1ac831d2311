use std::alloc::{AllocError, Global};
use value_dm::{Names, Text, TryCopy};

/// What the IRI of a column names.
#[derive(PartialEq, Eq, Drop)]
pub struct ColumnName {
    pub table: Text,
    pub column: Text,
}

/// What the IRI of a reference names: the table that has the foreign key, and the key's columns in its order.
#[derive(PartialEq, Eq, Drop)]
pub struct RefName {
    pub table: Text,
    pub columns: Names,
}

/// What the IRI of a relation names: the table that is a binary relation, its two columns, and the columns that they
/// reference.
#[derive(PartialEq, Eq, Drop)]
pub struct RelName {
    pub table: Text,
    pub left: Text,
    pub left_target: Text,
    pub right: Text,
    pub right_target: Text,
}

impl TryCopy for ColumnName {
    fn copy(&self, alloc: Global) -> Result<ColumnName, AllocError> {
        Ok(ColumnName {
            table: self.table.copy(alloc)?,
            column: self.column.copy(alloc)?,
        })
    }
}

impl TryCopy for RefName {
    fn copy(&self, alloc: Global) -> Result<RefName, AllocError> {
        Ok(RefName {
            table: self.table.copy(alloc)?,
            columns: self.columns.copy(alloc)?,
        })
    }
}

impl TryCopy for RelName {
    fn copy(&self, alloc: Global) -> Result<RelName, AllocError> {
        Ok(RelName {
            table: self.table.copy(alloc)?,
            left: self.left.copy(alloc)?,
            left_target: self.left_target.copy(alloc)?,
            right: self.right.copy(alloc)?,
            right_target: self.right_target.copy(alloc)?,
        })
    }
}
