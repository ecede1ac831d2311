ghost use Rattle.std.specs.Prelude.{◌≡◌, ◌∷◌, IfOk, length, map};
ghost use Rattle.std.specs.List.{AllZip};
ghost use Rattle.outside_dm.specs.Storing.{Batch, Stores};
ghost use Rattle.schema_dm.specs.declared.table.ShapeTable.{ShapeTable as Shape};
ghost use Rattle.table_csv.specs.CanonicalText.{AreTextColumns};
ghost use Rattle.table_csv.specs.Cells.{AreRowsOf};
ghost use Rattle.members_dm.specs.Membership.{IsIn};
ghost use Rattle.cmd_dm.specs.Ending.{Ends, result_status, to_both, to_shelf};
ghost use Rattle.cmd_dm.specs.Folder.{AreFilesOf, IsFileOf, entry_of, schema_file, shape_of};
ghost use Rattle.cmd_dm.specs.Invert.{files_work};
ghost use Rattle.cmd_dm.specs.Script.{write};
ghost use Rattle.outside_dm.specs.Sinks.{SinkState};

use crate::folder::{schema_file, table_file};
use crate::graphs::end_of_puts;
use crate::status::Status;
use outside_dm::{NamedFile, Shelf, Sink, StoreError};
use schema_dm::{ShapeTable, ShapeTables, Table};
use std::alloc::{AllocError, Global};
use table_csv::{Rows, table_text};
use value_dm::{Bytes, Sequence, Text, TryCopy};

/// Files that are stored in order.
pub(crate) type Files = Sequence<NamedFile>;

/// The tables without their keys.
pub(crate) fn shapes_of(alloc: Global, tables: &[Table]) -> Result<ShapeTables, AllocError>
    ensures { IfOk result (λ shapes. shapes ≡ map shape_of tables.now) }
{
    let mut shapes = ShapeTables::new(alloc);
    for table in tables {
        shapes.push(ShapeTable {
            name: table.name.copy(alloc)?,
            columns: table.columns.copy(alloc)?,
        })?;
    }
    Ok(shapes)
}

/// The schema's file in a folder, with these bytes.
fn schema_entry(alloc: Global, folder: &Text, bytes: Bytes) -> Result<NamedFile, AllocError>
    ensures { IfOk result (λ file. entry_of file ≡ (schema_file folder.now, bytes)) }
{
    let name = schema_file(alloc, folder)?;
    Ok(NamedFile {
        name: Text::from_str(alloc, name.as_str())?,
        bytes,
    })
}

/// The file of a table in a folder, with these rows by their canonical text.
fn table_entry(
    alloc: Global,
    folder: &Text,
    table: &ShapeTable,
    rows: &Rows,
) -> Result<NamedFile, AllocError>
    requires columns { AreTextColumns table.now.columns }
    requires rows { AreRowsOf table.now.columns rows.now }
    ensures { IfOk result (λ file. IsFileOf folder.now table.now rows.now (entry_of file)) }
{
    let name = table_file(alloc, folder, &table.name)?;
    Ok(NamedFile {
        name: Text::from_str(alloc, name.as_str())?,
        bytes: Bytes::from_vec(table_text(alloc, table, rows)?),
    })
}

/// The files of a folder: the schema's with these bytes, and then one for each table with its rows.
pub(crate) fn folder_files(
    alloc: Global,
    folder: &Text,
    schema: Bytes,
    tables: &[ShapeTable],
    rows: &[Rows],
) -> Result<Files, AllocError>
    requires columns { (table : Shape) → IsIn table tables.now → AreTextColumns table.columns }
    requires rows { AllZip (λ table rows. AreRowsOf table.columns rows) tables.now rows.now }
    ensures { IfOk result (λ files. (batch : Batch) × AreFilesOf folder.now tables.now rows.now batch
        × (map entry_of files ≡ (schema_file folder.now, schema) ∷ batch)) }
{
    let mut files = Files::new(alloc);
    files.push(schema_entry(alloc, folder, schema)?)?;
    for (place, table) in tables.iter().enumerate() {
        files.push(table_entry(alloc, folder, table, &rows[place])?)?;
    }
    Ok(files)
}

/// Stores files in order.
pub(crate) fn store_all<S: Shelf>(files: &[NamedFile], shelf: &mut S) -> Result<(), StoreError>
    ensures { Stores (map entry_of files.now) (S.state shelf.old) (S.state shelf.new) result }
{
    for file in files {
        shelf.store(file.name.as_str(), file.bytes.as_slice())?;
    }
    Ok(())
}

/// Stores files in order, and puts nothing.
pub(crate) fn store_work<S: Shelf>(files: &[NamedFile], shelf: &mut S) -> Result<(), Status>
    ensures { (out : SinkState) → Ends to_shelf (write (files_work (map entry_of files.now)))
        (S.state shelf.old) (S.state shelf.new) out out (result_status result) }
{
    match store_all(files, shelf) {
        Ok(()) => Ok(()),
        Err(StoreError::Failed) => Err(Status::WriteFault),
        Err(StoreError::Memory) => Err(Status::Memory),
    }
}

/// Stores files in order, and then puts a text.
pub(crate) fn write_work<S: Shelf, K: Sink>(
    files: &[NamedFile],
    text: &[u8],
    shelf: &mut S,
    out: &mut K,
) -> Result<(), Status>
    ensures { Ends to_both (write (record { files = map entry_of files.now; text = text.now }))
        (S.state shelf.old) (S.state shelf.new) (K.state out.old) (K.state out.new) (result_status result) }
{
    match store_all(files, shelf) {
        Ok(()) => end_of_puts(out.put(text)),
        Err(StoreError::Failed) => Err(Status::WriteFault),
        Err(StoreError::Memory) => Err(Status::Memory),
    }
}
