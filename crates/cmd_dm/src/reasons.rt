ghost use Rattle.std.specs.Prelude.{◌≡◌};
ghost use Rattle.cmd_dm.specs.Reasons.{batch_reason, cause_code, ddl_status, graph_status, inverse_status, key_reason, query_status, sparql_status, table_status};

use crate::status::{Reason, Status};
use algebra_dm::QueryError;
use ddl_dm::DdlError;
use inverse_dm::InverseError;
use keys_dm::{Violation, ViolationKind};
use ntriples_reader_dm::GraphError;
use schema_dm::SchemaCause;
use sparql_text_dm::SparqlError;
use table_csv::TableError;

/// The code of a cause for which tables stand for no schema.
fn cause_code(cause: SchemaCause) -> u8
    ensures { result ≡ cause_code cause }
{
    match cause {
        SchemaCause::NoTable => 2,
        SchemaCause::NoColumn => 3,
        SchemaCause::DuplicateTable => 4,
        SchemaCause::DuplicateColumn => 5,
        SchemaCause::UnknownColumn => 6,
        SchemaCause::UnknownTable => 7,
        SchemaCause::TwoPrimaryKeys => 8,
        SchemaCause::NotAKey => 9,
        SchemaCause::KindMismatch => 10,
        SchemaCause::SameColumnsTwice => 11,
        SchemaCause::NameClash => 12,
        SchemaCause::TooManyTables => 13,
        SchemaCause::TooManyColumns => 14,
        SchemaCause::BadName => 41,
    }
}

/// A refusal of this code.
fn refused(code: u8, table: u64, place: u64, column: u64) -> Status
    ensures { result ≡ Status.Refused (record { code = code; table = table; place = place; column = column }) }
{
    Status::Refused(Reason {
        code,
        table,
        place,
        column,
    })
}

/// The status of statements that are no schema.
pub(crate) fn ddl_status(error: DdlError) -> Status
    ensures { result ≡ ddl_status error }
{
    match error {
        DdlError::NotUtf8(place) => refused(15, 0, place, 0),
        DdlError::BadToken(place) => refused(16, 0, place, 0),
        DdlError::Unexpected(place) => refused(17, 0, place, 0),
        DdlError::UnknownType(place) => refused(18, 0, place, 0),
        DdlError::AlterUnknown(statement) => refused(43, 0, statement, 0),
        DdlError::Schema(error) => refused(cause_code(error.cause), error.table, 0, 0),
        DdlError::Memory => Status::Memory,
    }
}

/// The status of a file that isn't one of rows of the table of this number, counted from 1.
pub(crate) fn table_status(number: u64, error: TableError) -> Status
    ensures { result ≡ table_status number error }
{
    match error {
        TableError::NoHeader => refused(19, number, 0, 0),
        TableError::BadHeader(column) => refused(20, number, 0, column),
        TableError::FieldCount(place) => refused(21, number, place, 0),
        TableError::TextNotUtf8(place, column) => refused(22, number, place, column),
        TableError::BadValue(place, column) => refused(23, number, place, column),
        TableError::NullRefused(place, column) => refused(24, number, place, column),
        TableError::TooManyRows => refused(25, number, 0, 0),
        TableError::Memory => Status::Memory,
    }
}

/// The status of bytes that are no document of triples.
pub(crate) fn graph_status(error: GraphError) -> Status
    ensures { result ≡ graph_status error }
{
    match error {
        GraphError::BadLine(line) => refused(28, 0, line, 0),
        GraphError::TooManyTriples => refused(29, 0, 0, 0),
        GraphError::Memory => Status::Memory,
    }
}

/// The status of triples that give no tables.
pub(crate) fn inverse_status(error: InverseError) -> Status
    ensures { result ≡ inverse_status error }
{
    match error {
        InverseError::NoTables => refused(44, 0, 0, 0),
        InverseError::Unexplained(place) => refused(30, 0, place, 0),
        InverseError::TwoValues(place) => refused(31, 0, place, 0),
        InverseError::TwoTables(place) => refused(32, 0, place, 0),
        InverseError::NoKeyValue(place) => refused(33, 0, place, 0),
        InverseError::TooManyTables => refused(13, 0, 0, 0),
        InverseError::TooManyColumns => refused(14, 0, 0, 0),
        InverseError::TooManyRows => refused(25, 0, 0, 0),
        InverseError::Memory => Status::Memory,
    }
}

/// The status of a text that is no query over the tables of a schema.
pub(crate) fn query_status(error: QueryError) -> Status
    ensures { result ≡ query_status error }
{
    match error {
        QueryError::BadQuery(place) => refused(34, 0, place, 0),
        QueryError::TooDeep(place) => refused(40, 0, place, 0),
        QueryError::NoSuchTable => refused(35, 0, 0, 0),
        QueryError::NoSuchColumn => refused(36, 0, 0, 0),
        QueryError::NameTaken => refused(37, 0, 0, 0),
        QueryError::NotSameColumns => refused(38, 0, 0, 0),
        QueryError::EmptyProject => refused(39, 0, 0, 0),
        QueryError::TooWide => refused(45, 0, 0, 0),
        QueryError::Memory => Status::Memory,
    }
}

/// The status of a text that is no pattern with a header.
pub(crate) fn sparql_status(error: SparqlError) -> Status
    ensures { result ≡ sparql_status error }
{
    match error {
        SparqlError::BadPattern(place) => refused(47, 0, place, 0),
        SparqlError::TooNested(place) => refused(48, 0, place, 0),
        SparqlError::Memory => Status::Memory,
    }
}

/// The status of a violated key.
pub(crate) fn key_status(violation: &Violation) -> Status
    ensures { result ≡ Status.Refused (key_reason violation.now) }
{
    let table = violation.table;
    let row = violation.row;
    match violation.kind {
        ViolationKind::NullKey => refused(42, table, row, 0),
        ViolationKind::RepeatedKey => refused(42, table, row, 0),
        ViolationKind::RepeatedUnique(key) => refused(46, table, row, key),
        ViolationKind::Dangling(key) => refused(42, table, row, key),
    }
}

/// The status of a key that is violated in a database with a batch behind its rows.
pub(crate) fn batch_status(violation: &Violation) -> Status
    ensures { result ≡ Status.Refused (batch_reason violation.now) }
{
    let table = violation.table;
    let row = violation.row;
    match violation.kind {
        ViolationKind::NullKey => refused(50, table, row, 0),
        ViolationKind::RepeatedKey => refused(50, table, row, 0),
        ViolationKind::RepeatedUnique(key) => refused(51, table, row, key),
        ViolationKind::Dangling(key) => refused(50, table, row, key),
    }
}
