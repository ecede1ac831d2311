use std::alloc::{self, AllocError};
use std::convert::From;
use thiserror::Error;
use value_dm::AllocFailed;

/// Why bytes are no table file. Records and columns are counted from 1; the header is the first
/// record, and the place of a column is that of its field in the file.
#[derive(Clone, Copy, Debug, PartialEq, Eq, Error)]
pub enum TableError {
    /// There is no record.
    #[error("no header")]
    NoHeader,
    /// The field of this column isn't a column's name or repeats an earlier field, or a column is
    /// missing, and this is the place after the last field.
    #[error("bad header at column {0}")]
    BadHeader(u64),
    /// The record of this number hasn't one field for each column.
    #[error("wrong number of fields in record {0}")]
    FieldCount(u64),
    /// The field of this record and column isn't UTF-8.
    #[error("no UTF-8 in record {0}, column {1}")]
    TextNotUtf8(u64, u64),
    /// The field of this record and column is neither NULL nor a spelling of the column's kind.
    #[error("no value of the kind in record {0}, column {1}")]
    BadValue(u64, u64),
    /// A NULL stands in this record and column, which has an explicit NOT NULL.
    #[error("NULL in record {0}, column {1}")]
    NullRefused(u64, u64),
    /// There are more than 4,194,304 rows.
    #[error("too many rows")]
    TooManyRows,
    /// There was no memory.
    #[error("out of memory")]
    Memory,
}

impl From<AllocError> for TableError {
    ghost use Rattle.std.specs.Prelude.{◌≡◌};
    ghost use Rattle.table_csv.specs.declared.fault.TableError.TheVariants.{Memory};

    ghost from_gives = { λ _ error. error ≡ Memory };

    fn from(_error: AllocError) -> TableError {
        TableError::Memory
    }
}

impl<T: Drop> From<AllocFailed<T>> for TableError {
    ghost use Rattle.std.specs.Prelude.{◌≡◌};
    ghost use Rattle.table_csv.specs.declared.fault.TableError.TheVariants.{Memory};

    ghost from_gives = { λ _ error. error ≡ Memory };

    fn from(_error: AllocFailed<T>) -> TableError {
        TableError::Memory
    }
}

impl<T: Drop> From<alloc::AllocFailed<T>> for TableError {
    ghost use Rattle.std.specs.Prelude.{◌≡◌};
    ghost use Rattle.table_csv.specs.declared.fault.TableError.TheVariants.{Memory};

    ghost from_gives = { λ _ error. error ≡ Memory };

    fn from(_error: alloc::AllocFailed<T>) -> TableError {
        TableError::Memory
    }
}
