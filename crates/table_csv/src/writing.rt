ghost use Rattle.std.specs.Prelude.{◌≡◌, [], ◌∷◌, All, IfOk, OnOk, map};
ghost use Rattle.csv.specs.Records.{fields_of};
ghost use Rattle.table_csv.specs.CanonicalText.{AreTextColumns, IsCanonicalText, IsFileOfSame, IsNamed, IsWritten, cell_field, row_fields, text_of};
ghost use Rattle.table_csv.specs.Cells.{AreRowsOf};
ghost use Rattle.table_csv.specs.TableFiles.{name_fields};

use crate::line::Line;
use crate::rows::Rows;
use csv::{ByteRecord, WriterBuilder};
use schema_dm::{Column, ShapeTable};
use std::alloc::{AllocError, Global};
use value_dm::{Bytes, Cell, Cells, field_text};

/// The canonical text of the table: comma-separated values (RFC 4180) with LF behind each record,
/// first the columns' names, then the rows by their canonical fields. The rows stand in the order of
/// the list of their fields, fields by their bytes; equal rows stay. In the mode Plain the text is
/// read back as the same rows. Refused for want of memory alone.
///
/// There is a column, the columns' names are distinct, not empty and don't begin with U+FEFF, and the
/// rows are such that a table of these columns may have.
pub fn table_text(alloc: Global, table: &ShapeTable, rows: &Rows) -> Result<Vec<u8>, AllocError>
    requires columns { AreTextColumns table.now.columns }
    requires rows { AreRowsOf table.now.columns rows.now }
    ensures canonical { IfOk result (λ text. IsCanonicalText table.now.columns rows.now text.items) }
    ensures read_back { IfOk result (λ text. IsFileOfSame table.now.columns rows.now text.items) }
{
    let header = header_line(alloc, table.columns.as_slice())?;
    let mut lines = row_lines(alloc, rows.as_slice())?;
    lines.sort()?;
    lines.insert(0, header)?;
    lines_text(alloc, &lines)
}

fn header_line(alloc: Global, columns: &[Column]) -> Result<Line, AllocError>
    ensures line { IfOk result (λ line. line ≡ name_fields columns.now) }
    ensures named { OnOk result (All IsNamed columns.now) }
{
    let mut fields = Vec::new(alloc);
    for column in columns {
        fields.push(bytes_of(alloc, column.name.as_str())?)?;
    }
    Ok(Line::new(fields))
}

fn row_lines(alloc: Global, rows: &[Cells]) -> Result<Vec<Line>, AllocError>
    ensures lines { IfOk result (λ lines. lines.items ≡ map row_fields rows.now) }
    ensures written { OnOk result (All (All IsWritten) rows.now) }
{
    let mut lines = Vec::new(alloc);
    for row in rows {
        lines.push(row_line(alloc, row.as_slice())?)?;
    }
    Ok(lines)
}

fn row_line(alloc: Global, row: &[Cell]) -> Result<Line, AllocError>
    ensures line { IfOk result (λ line. line ≡ row_fields row.now) }
    ensures written { OnOk result (All IsWritten row.now) }
{
    let mut fields = Vec::new(alloc);
    for cell in row {
        fields.push(cell_bytes(alloc, cell)?)?;
    }
    Ok(Line::new(fields))
}

fn cell_bytes(alloc: Global, cell: &Cell) -> Result<Bytes, AllocError>
    ensures bytes { IfOk result (λ bytes. bytes ≡ cell_field cell.now) }
    ensures written { OnOk result (IsWritten cell.now) }
{
    let text = field_text(alloc, cell)?;
    bytes_of(alloc, text.as_str())
}

fn bytes_of(alloc: Global, text: &str) -> Result<Bytes, AllocError>
    ensures { IfOk result (λ bytes. bytes ≡ text.now) }
{
    Ok(Bytes::from_vec(Vec::from_slice(alloc, text.as_bytes())?))
}

fn lines_text(alloc: Global, lines: &[Line]) -> Result<Vec<u8>, AllocError>
    ensures { IfOk result (λ text. text.items ≡ text_of lines.now) }
{
    let mut writer = WriterBuilder::new().from_writer(Vec::new(alloc));
    for line in lines {
        let record = record_of(alloc, line.fields())?;
        if writer.write_byte_record(&record).is_err() {
            return Err(AllocError);
        }
    }
    match writer.into_inner() {
        Ok(text) => Ok(text),
        Err(_) => Err(AllocError),
    }
}

fn record_of(alloc: Global, fields: &[Bytes]) -> Result<ByteRecord, AllocError>
    ensures { IfOk result (λ made. fields_of made ≡ fields.now) }
{
    let mut record = ByteRecord::new(alloc);
    for field in fields {
        record.push_field(field.as_slice())?;
    }
    Ok(record)
}
