// The canonical statements of a shape.
ghost use Rattle.std.specs.Prelude.{◌≡◌, [], ◌∷◌, IfOk, OnOk, map, chars, encode_utf8_all, string_bytes};
ghost use Rattle.std.specs.List.{flat_map};
ghost use Rattle.ddl_tokens_dm.specs.Tokens.{doubled};
ghost use Rattle.ddl_dm.specs.Canonical.{quoted, type_text, column_text, further_text, columns_text, table_text, canonical_text, plain_table, Adds};
ghost use Rattle.ddl_dm.specs.Schema.{IsDdl};

use schema_dm::{Column, Shape, ShapeTable};
use std::alloc::{AllocError, Global};
use value_dm::{Kind, Text};

fn push_doubled(text: &mut String, character: char) -> Result<(), AllocError>
    ensures { OnOk result (Adds (string_bytes text.old) (string_bytes text.new) (doubled (character ∷ []))) }
{
    if character == '"' {
        text.push_str("\"\"")?;
        Ok(())
    } else {
        text.push(character)?;
        Ok(())
    }
}

fn push_characters(text: &mut String, characters: &str) -> Result<(), AllocError>
    ensures { OnOk result (Adds (string_bytes text.old) (string_bytes text.new) (doubled (chars characters.now))) }
{
    for character in characters.chars() {
        push_doubled(text, character)?;
    }
    Ok(())
}

fn push_name(text: &mut String, name: &Text) -> Result<(), AllocError>
    ensures { OnOk result (Adds (string_bytes text.old) (string_bytes text.new) (quoted name.now)) }
{
    text.push_str("\"")?;
    push_characters(text, name.as_str())?;
    text.push_str("\"")?;
    Ok(())
}

fn type_text(kind: Kind) -> &'static str
    ensures { result.now ≡ type_text kind }
{
    match kind {
        Kind::Text => "TEXT",
        Kind::Integer => "INTEGER",
        Kind::Decimal => "DECIMAL",
        Kind::Boolean => "BOOLEAN",
        Kind::Date => "DATE",
        Kind::Time => "TIME",
        Kind::DateTime => "TIMESTAMP",
        Kind::Binary => "BINARY",
    }
}

fn push_column(text: &mut String, column: &Column) -> Result<(), AllocError>
    ensures { OnOk result (Adds (string_bytes text.old) (string_bytes text.new) (column_text column.now)) }
{
    push_name(text, &column.name)?;
    text.push_str(" ")?;
    text.push_str(type_text(column.kind))?;
    Ok(())
}

fn push_further(text: &mut String, column: &Column) -> Result<(), AllocError>
    ensures { OnOk result (Adds (string_bytes text.old) (string_bytes text.new) (further_text column.now)) }
{
    text.push_str(", ")?;
    push_column(text, column)?;
    Ok(())
}

fn push_rest(text: &mut String, columns: &[Column]) -> Result<(), AllocError>
    ensures { OnOk result (Adds (string_bytes text.old) (string_bytes text.new) (flat_map further_text columns.now)) }
{
    for column in columns {
        push_further(text, column)?;
    }
    Ok(())
}

fn push_columns(text: &mut String, columns: &[Column]) -> Result<(), AllocError>
    ensures { OnOk result (Adds (string_bytes text.old) (string_bytes text.new) (columns_text columns.now)) }
{
    match columns.split_first() {
        Some((first, rest)) => {
            push_column(text, first)?;
            push_rest(text, rest)?;
            Ok(())
        }
        None => Ok(()),
    }
}

fn push_table(text: &mut String, table: &ShapeTable) -> Result<(), AllocError>
    ensures { OnOk result (Adds (string_bytes text.old) (string_bytes text.new) (table_text table.now)) }
{
    text.push_str("CREATE TABLE ")?;
    push_name(text, &table.name)?;
    text.push_str(" (")?;
    push_columns(text, table.columns.as_slice())?;
    text.push_str(");\n")?;
    Ok(())
}

fn push_tables(text: &mut String, tables: &[ShapeTable]) -> Result<(), AllocError>
    ensures { OnOk result (Adds (string_bytes text.old) (string_bytes text.new) (flat_map table_text tables.now)) }
{
    for table in tables {
        push_table(text, table)?;
    }
    Ok(())
}

/// The canonical statements of a shape: a line `CREATE TABLE "NAME" ("COLUMN" TYPE, ..);` for each table, in
/// order, each `"` in a name twice. Types are TEXT, INTEGER, DECIMAL, BOOLEAN, DATE, TIME, TIMESTAMP and BINARY
/// (ISO/IEC 9075-2, 6.1 and 11.3). Its bytes are read as the same tables and columns, without keys. Refused for
/// want of memory alone.
pub fn shape_text(alloc: Global, shape: &Shape) -> Result<String, AllocError>
    ensures bytes { IfOk result (λ text. string_bytes text ≡ encode_utf8_all (canonical_text shape.now)) }
    ensures reads_back { IfOk result (λ text. IsDdl (string_bytes text) (map plain_table shape.now)) }
{
    let mut text = String::new(alloc);
    push_tables(&mut text, shape.as_slice())?;
    Ok(text)
}
