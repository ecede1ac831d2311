ghost use Rattle.std.specs.Prelude.{◌≡◌, ◌↔◌, None, IsTrue, slice_index_or};
ghost use Rattle.members_dm.specs.Membership.{IsIn};
ghost use Rattle.table_csv.specs.Cells.{cells_at};

use schema_dm::Places;
use value_dm::Cell;

fn is_null_at(row: &[Cell], place: u32) -> bool
    ensures { IsTrue result ↔ (slice_index_or row.now place None ≡ None) }
{
    match row.get(place as usize) {
        None => true,
        Some(cell) => cell.is_none(),
    }
}

/// Whether one of the row's cells in the columns at the places, counted from 0, is NULL.
pub fn has_null_at(row: &[Cell], places: &Places) -> bool
    ensures { IsTrue result ↔ IsIn None (cells_at places.now row.now) }
{
    places
        .as_slice()
        .iter()
        .any(|place| is_null_at(row, *place))
}
