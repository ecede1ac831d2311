//! Databases that are told as text.

use ddl_dm::read_ddl;
use keys_dm::holds_all;
use schema_dm::Schema;
use std::alloc::Global;
use table_csv::{Database, Rows, RowsList, read_table};
use value_dm::NullMode;

/// The schema of these statements.
pub fn schema(alloc: Global, statements: &str) -> Option<Schema> {
    read_ddl(alloc, statements.as_bytes()).ok()
}

fn table_rows(alloc: Global, schema: &Schema, t: usize, file: &str) -> Option<Rows> {
    match schema.tables().get(t) {
        Some(table) => read_table(alloc, table, file.as_bytes(), NullMode::Plain).ok(),
        None => None,
    }
}

/// The rows of the schema's tables, whose files have `;` between them.
pub fn lists(alloc: Global, schema: &Schema, files: &str) -> Option<RowsList> {
    let mut lists = RowsList::new(alloc);
    for (t, file) in files.split(';').enumerate() {
        lists.push(table_rows(alloc, schema, t, file)?).ok()?;
    }
    Some(lists)
}

/// The database of a schema and these rows, or nothing where they don't fit.
pub fn joined(schema: Schema, lists: RowsList) -> Option<Database> {
    Database::new(schema, lists)
}

/// The database of these statements and files.
pub fn database(alloc: Global, statements: &str, files: &str) -> Option<Database> {
    let schema = schema(alloc, statements)?;
    let lists = lists(alloc, &schema, files)?;
    joined(schema, lists)
}

/// Whether it is told that no key is violated.
pub fn holds(alloc: Global, database: &Database) -> bool {
    holds_all(alloc, database) == Ok(true)
}
