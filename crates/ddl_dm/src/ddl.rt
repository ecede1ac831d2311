ghost use Rattle.std.specs.Prelude.{◌≡◌};
ghost use Rattle.ddl_dm.specs.Schema.{IsDeclared, IsSchemaRead};

use crate::drafts::{created, drafts_of, unknown_alter};
use ddl_syntax_dm::{Statement, SyntaxError, read_statements};
use schema_dm::{Schema, SchemaError, SchemaFault};
use std::alloc::{AllocError, Global};
use thiserror::Error;

/// Why bytes gave no schema. Places count the file's bytes from 1.
#[derive(Clone, Copy, Debug, PartialEq, Eq, Error)]
pub enum DdlError {
    /// The bytes are not UTF-8: the byte behind their longest front that is.
    #[error("byte {0} is no part of UTF-8")]
    NotUtf8(u64),
    /// All tokens before begin a file, and then comes a text that is no token.
    #[error("byte {0} begins no token")]
    BadToken(u64),
    /// The first token with which the tokens so far begin no file, or the place behind the end.
    #[error("unexpected at byte {0}")]
    Unexpected(u64),
    /// The same, where it is a bare word in the place of a column's type.
    #[error("byte {0} begins no known type")]
    UnknownType(u64),
    /// The first ALTER of a table that no statement creates: its number among all statements but empty ones,
    /// counted from 1.
    #[error("statement {0} alters a table that no statement creates")]
    AlterUnknown(u64),
    /// The first cause for which the tables stand for no schema.
    #[error(transparent)]
    Schema(SchemaError),
    #[error("out of memory")]
    Memory,
}

impl From<SyntaxError> for DdlError {
    ghost use Rattle.std.specs.Prelude.{◌≡◌};
    ghost use Rattle.ddl_dm.specs.Schema.{syntax_told};

    ghost from_gives = { λ fault error. error ≡ syntax_told fault };

    fn from(fault: SyntaxError) -> DdlError {
        match fault {
            SyntaxError::Memory => DdlError::Memory,
            SyntaxError::NotUtf8(place) => DdlError::NotUtf8(place as u64),
            SyntaxError::BadToken(place) => DdlError::BadToken(place as u64),
            SyntaxError::Unexpected(place) => DdlError::Unexpected(place as u64),
            SyntaxError::UnknownType(place) => DdlError::UnknownType(place as u64),
        }
    }
}

impl From<SchemaFault> for DdlError {
    ghost use Rattle.std.specs.Prelude.{◌≡◌};
    ghost use Rattle.ddl_dm.specs.Schema.{fault_told};

    ghost from_gives = { λ fault error. error ≡ fault_told fault };

    fn from(fault: SchemaFault) -> DdlError {
        match fault {
            SchemaFault::Bad(error) => DdlError::Schema(error),
            SchemaFault::Memory => DdlError::Memory,
        }
    }
}

impl From<AllocError> for DdlError {
    ghost use Rattle.std.specs.Prelude.{◌≡◌};
    ghost use Rattle.ddl_dm.specs.declared.ddl.DdlError.TheVariants.{Memory};

    ghost from_gives = { λ _ error. error ≡ Memory };

    fn from(_refused: AllocError) -> DdlError {
        DdlError::Memory
    }
}

/// The schema that the statements declare.
fn declared(alloc: Global, statements: &[Statement]) -> Result<Schema, DdlError>
    ensures { IsDeclared statements.now result }
{
    let created = created(alloc, statements)?;
    match unknown_alter(&created, statements) {
        None => {}
        Some(place) => return Err(DdlError::AlterUnknown(place as u64 + 1)),
    }
    let drafts = drafts_of(alloc, &created, statements)?;
    Ok(Schema::new(alloc, drafts)?)
}

/// The schema that a file of CREATE TABLE and ALTER TABLE declares (a part of ISO/IEC 9075-2, 11.3, 11.4 and
/// 11.10); else the file's first fault: bytes that are not UTF-8; then a text that is no token, a token that
/// doesn't fit or a word that is no type, whichever stands first; then the first ALTER of a table that no
/// statement creates; then the first cause for which the tables stand for no schema. Refused for want of
/// memory besides.
///
/// A table's keys stand in the order of the text, those of ALTERs behind those of its CREATE; an ALTER of a name
/// that several statements create belongs to the first of them. Only NOT NULL makes a column `not_null`. NULL,
/// lengths, precisions, names of constraints, referential actions and IF NOT EXISTS have no effect.
pub fn read_ddl(alloc: Global, bytes: &[u8]) -> Result<Schema, DdlError>
    ensures { IsSchemaRead bytes.now result }
{
    let statements = read_statements(alloc, bytes)?;
    declared(alloc, statements.as_slice())
}
