use std::alloc::AllocError;
use std::convert::From;
use thiserror::Error;
use value_dm::AllocFailed;

/// Why drafts stand for no schema. Where several causes hold of one draft, the first in this order
/// is told.
#[derive(Clone, Copy, Debug, PartialEq, Eq, Error)]
pub enum SchemaCause {
    #[error("there is no table")]
    NoTable,
    #[error("more than 4096 tables")]
    TooManyTables,
    #[error("a name is empty or begins with a byte order mark")]
    BadName,
    #[error("a table or a key without columns")]
    NoColumn,
    #[error("more than 256 columns")]
    TooManyColumns,
    #[error("an earlier table has the name")]
    DuplicateTable,
    #[error("a column stands twice in the table or in a key")]
    DuplicateColumn,
    #[error("a key names a column that the table hasn't")]
    UnknownColumn,
    #[error("a foreign key references a table that isn't declared")]
    UnknownTable,
    #[error("more than one primary key")]
    TwoPrimaryKeys,
    #[error("a foreign key's target columns are no key of the target")]
    NotAKey,
    #[error("a column and its target column have different kinds")]
    KindMismatch,
    #[error("two foreign keys have the same columns")]
    SameColumnsTwice,
    #[error("a column `ref-x` stands beside a foreign key on `x` alone")]
    NameClash,
}

/// A cause with the table that it holds of.
#[derive(Clone, Copy, Debug, PartialEq, Eq, Error)]
#[error("table {table}: {cause}")]
pub struct SchemaError {
    pub cause: SchemaCause,
    /// The draft's number, counted from 1; 0 for `NoTable` and `TooManyTables`.
    pub table: u64,
}

/// What `Schema::new` is refused for.
#[derive(Clone, Copy, Debug, PartialEq, Eq, Error)]
pub enum SchemaFault {
    #[error(transparent)]
    Bad(SchemaError),
    #[error("out of memory")]
    Memory,
}

impl From<AllocError> for SchemaFault {
    ghost use Rattle.std.specs.Prelude.{◌≡◌};
    ghost use Rattle.schema_dm.specs.declared.refusal.SchemaFault.TheVariants.{Memory};

    ghost from_gives = { λ _ fault. fault ≡ Memory };

    fn from(_refused: AllocError) -> SchemaFault {
        SchemaFault::Memory
    }
}
