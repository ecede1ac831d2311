ghost use Rattle.std.specs.Prelude.{◌≡◌, ◌<◌, [], IfErr, IfNone, IfOk, IfSome, length, slice_index_or};
ghost use Rattle.csv.specs.Records.{fields_of};
ghost use Rattle.members_dm.specs.Membership.{IsIn, NoRepeats};
ghost use Rattle.table_csv.specs.Headers.{IsHeaderFault, IsOrder, header_of};
ghost use Rattle.table_csv.specs.TableFiles.{name_fields};

use crate::fault::TableError;
use csv::ByteRecord;
use schema_dm::Column;
use std::alloc::Global;

/// The places of the columns, counted from 0, in the order in which the header names them.
///
/// `BadHeader` at the first field that isn't a column's name or repeats an earlier field, and where
/// there is none and a column is missing, at the place after the last field; `Memory` for want of it.
pub fn read_header(
    alloc: Global,
    columns: &[Column],
    header: &ByteRecord,
) -> Result<Vec<usize>, TableError>
    requires { NoRepeats (name_fields columns.now) }
    ensures order { IfOk result (λ order. IsOrder columns.now order.items) }
    ensures names { IfOk result (λ order. fields_of header.now ≡ header_of columns.now order.items) }
    ensures err { IfErr result (IsHeaderFault columns.now (fields_of header.now)) }
{
    let mut order = Vec::new(alloc);
    for field in header {
        let place = match column_place(columns, field) {
            Some(place) => place,
            None => return Err(TableError::BadHeader(order.len() as u64 + 1)),
        };
        if order.contains(&place) {
            return Err(TableError::BadHeader(order.len() as u64 + 1));
        }
        order.push(place)?;
    }
    if order.len() < columns.len() {
        return Err(TableError::BadHeader(order.len() as u64 + 1));
    }
    Ok(order)
}

// The place of the column that the field names.
fn column_place(columns: &[Column], field: &[u8]) -> Option<usize>
    ensures found { IfSome result (λ place. (place < length columns.now) × (slice_index_or (name_fields columns.now) place [] ≡ field.now)) }
    ensures none { IfNone result (¬ IsIn field.now (name_fields columns.now)) }
{
    for (place, column) in columns.iter().enumerate() {
        if column.name.as_str().as_bytes() == field {
            return Some(place);
        }
    }
    None
}
