ghost use Rattle.std.specs.Prelude.{◌≡◌, IfOk};
ghost use Rattle.schema_dm.specs.Naming.{name_at};

use schema_dm::Column;
use std::alloc::{AllocError, Global};
use value_dm::{Text, TryCopy};

/// The name of the column at this place, or the empty text where there is none.
pub fn name_at(alloc: Global, columns: &[Column], place: usize) -> Result<Text, AllocError>
    ensures { IfOk result (λ name. name ≡ name_at columns.now place) }
{
    let Some(column) = columns.get(place) else {
        return Ok(Text::from_str(alloc, "")?);
    };
    column.name.copy(alloc)
}
