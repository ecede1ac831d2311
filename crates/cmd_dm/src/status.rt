ghost use Rattle.std.specs.Prelude.{◌≡◌};
ghost use Rattle.cmd_dm.specs.Statuses.{number_of};

use std::alloc::AllocError;
use std::convert::From;
use value_dm::AllocFailed;

/// A file that a command loads.
#[derive(Debug, Clone, Copy, PartialEq, Eq, Drop)]
pub enum File {
    /// The SQL DDL of the database.
    Schema,

    /// The CSV file of the table with this number, counted from 1 in the schema's order.
    Table(u64),

    /// The text of a query.
    Query,

    /// The N-Triples of a graph.
    Graph,

    /// The SPARQL text of a pattern.
    Pattern,

    /// The CSV file with further rows of the table with this number, counted from 1.
    More(u64),
}

/// Why an input was refused. A field that its code doesn't use is 0.
#[derive(Debug, Clone, Copy, PartialEq, Eq, Drop)]
pub struct Reason {
    /// The number of the cause.
    pub code: u8,

    /// The number of the table, from 1.
    pub table: u64,

    /// A byte, a record, a line, a triple, a row or a statement, each counted from 1; which of them, the cause says.
    pub place: u64,

    /// A field of a record or the number of a key, from 1.
    pub column: u64,
}

impl Reason {
    /// The reason of a cause that names no place.
    pub(crate) fn of_code(code: u8) -> Reason
        ensures { result ≡ record { code = code; table = 0; place = 0; column = 0 } }
    {
        Reason {
            code,
            table: 0,
            place: 0,
            column: 0,
        }
    }
}

/// How a run ended.
#[derive(Debug, Clone, Copy, PartialEq, Eq, Drop)]
pub enum Status {
    /// All was written.
    Ok,

    /// The input was refused.
    Refused(Reason),

    /// The words are no command.
    Usage,

    /// There is no such file.
    Absent(File),

    /// The shelf failed at this file.
    ReadFault(File),

    /// The output failed, or the shelf failed to store a file.
    WriteFault,

    /// Want of memory.
    Memory,

    /// The file has more than 268,435,456 bytes.
    TooLong(File),
}

impl Status {
    /// The number that the program ends with, from 0 to 7.
    pub fn number(&self) -> u8
        ensures { result ≡ number_of self.now }
    {
        match self {
            Status::Ok => 0,
            Status::Refused(_) => 1,
            Status::Usage => 2,
            Status::Absent(_) => 3,
            Status::ReadFault(_) => 4,
            Status::WriteFault => 5,
            Status::Memory => 6,
            Status::TooLong(_) => 7,
        }
    }
}

impl From<AllocError> for Status {
    ghost use Rattle.cmd_dm.specs.declared.status.Status.TheVariants.{Memory};

    ghost from_gives = { λ _ status. status ≡ Memory };

    fn from(_refused: AllocError) -> Status {
        Status::Memory
    }
}

impl<T: Drop> From<AllocFailed<T>> for Status {
    ghost use Rattle.cmd_dm.specs.declared.status.Status.TheVariants.{Memory};

    ghost from_gives = { λ _ status. status ≡ Memory };

    fn from(_refused: AllocFailed<T>) -> Status {
        Status::Memory
    }
}
