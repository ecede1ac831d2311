// The rows of a table as a relation.
ghost use Rattle.std.specs.Prelude.{◌≡◌, ◌<◌, [], IfOk, map, length};
ghost use Rattle.members_dm.specs.Membership.{IsIn, NoRepeats};
ghost use Rattle.names_dm.specs.Variables.{variable_of};
ghost use Rattle.query_rows_dm.specs.Numbers.{AreOneToOne};
ghost use Rattle.query_rows_dm.specs.Tables.{AreColumns, AreNumbered, IsTableRelation};

use crate::dictionary::Dictionary;
use crate::relation::Relation;
use crate::variables::variables_of;
use names_dm::Var;
use solutions_dm::{Column, Solutions, distinct};
use std::alloc::{AllocError, Global};
use value_dm::{Cells, Sequence, Text, TryCopy};

// The numbers of the cells in the column at the place.
fn column_numbers<'a>(
    alloc: Global,
    rows: &'a [Cells],
    place: usize,
    dictionary: &mut Dictionary<'a>,
) -> Result<Sequence<u32>, AllocError>
    ensures { IfOk result (λ numbers. AreNumbered dictionary.old dictionary.new rows.now place numbers) }
{
    let mut numbers = Sequence::new(alloc);
    for row in rows {
        numbers.push(dictionary.number_at(row.as_slice(), place)?)?;
    }
    Ok(numbers)
}

// A column for each variable.
fn table_columns<'a>(
    alloc: Global,
    vars: &[Var],
    rows: &'a [Cells],
    dictionary: &mut Dictionary<'a>,
) -> Result<Sequence<Column>, AllocError>
    ensures { IfOk result (λ columns. AreColumns dictionary.old dictionary.new rows.now vars.now columns) }
{
    let mut columns = Sequence::new(alloc);
    for place in 0..vars.len() {
        columns.push(Column {
            name: vars[place].copy(alloc)?,
            numbers: column_numbers(alloc, rows, place, dictionary)?,
        })?;
    }
    Ok(columns)
}

/// The rows of a table under the names of its columns, each once. Refused for want of memory, and where there are more
/// values than numbers.
pub fn table_rows<'a>(
    alloc: Global,
    names: &[Text],
    rows: &'a [Cells],
    dictionary: &mut Dictionary<'a>,
) -> Result<Relation, AllocError>
    requires named { ¬ IsIn [] names.now }
    requires once { NoRepeats names.now }
    requires apart { AreOneToOne dictionary.old }
    ensures { IfOk result (λ r. IsTableRelation dictionary.old dictionary.new names.now rows.now r) }
{
    let attributes = variables_of(alloc, names)?;
    let columns = table_columns(alloc, attributes.as_slice(), rows, dictionary)?;
    let all = Solutions::of_columns(columns, rows.len());
    Ok(Relation {
        attributes,
        rows: distinct(alloc, &all)?,
    })
}
