ghost use Rattle.std.specs.Prelude.{◌≡◌, ◌<◌, IfOk, length, map};
ghost use Rattle.std.specs.List.{AllZip};
ghost use Rattle.graph_tables_dm.specs.TableReadings.{plain_of};
ghost use Rattle.layouts_dm.specs.LayoutTables.{AreOfShape};
ghost use Rattle.table_csv.specs.Cells.{AreRowsOf};
ghost use Rattle.table_csv.specs.Databases.{rows_at};
ghost use Rattle.inverse_dm.specs.Limits.{IsWithinLimits};
ghost use Rattle.inverse_dm.specs.Parts.{rows_of, shape_of};

use graph_tables_dm::GraphTables;
use schema_dm::{Shape, ShapeTables};
use std::alloc::{AllocError, Global};
use std::marker::Model;
use table_csv::{Rows, RowsList};
use value_dm::{Cells, Sequence};

/// Tables without keys and their rows, which contracts see as a list of tables. Tables and the columns of each stand in
/// strictly rising order of their names' bytes.
#[derive(Drop)]
pub struct Tables {
    shape: Shape,
    rows: RowsList,
}

impl Model for Tables {
    ghost use Rattle.std.specs.Prelude.{List};
    ghost use Rattle.std.specs.List.{AllZip};
    ghost use Rattle.table_csv.specs.Cells.{AreRowsOf};
    ghost use Rattle.table_csv.specs.Plain.{PlainTable};
    ghost use Rattle.inverse_dm.specs.Parts.{tables_from};

    ghost Value = { List PlainTable };

    ghost view = { λ tables. tables_from tables.shape tables.rows };

    ghost invariant = { λ tables. AllZip (λ table rows. AreRowsOf table.columns rows) tables.shape tables.rows };
}

impl Tables {
    /// The tables without their rows.
    pub fn shape(&self) -> &Shape
        ensures { result.now ≡ shape_of self.now }
    {
        &self.shape
    }

    /// The rows of the table at this place, counted from 0.
    pub fn rows_of(&self, table: u32) -> &Rows
        requires { table < length self.now }
        ensures { result.now ≡ rows_at (rows_of self.now) table }
    {
        &self.rows.as_slice()[table as usize]
    }

    /// The rows of each table, in the order of the tables.
    pub fn rows(&self) -> &[Rows]
        ensures value { result.now ≡ rows_of self.now }
        ensures fits { AllZip (λ table rows. AreRowsOf table.columns rows) (shape_of self.now) (rows_of self.now) }
    {
        self.rows.as_slice()
    }
}

// The rows, none of which is copied.
fn rows_from(alloc: Global, cells: Sequence<Cells>) -> Result<Rows, AllocError>
    ensures { IfOk result (λ rows. rows ≡ cells) }
{
    let mut rows = Rows::new(alloc);
    for row in cells.into_vec() {
        rows.push(row)?;
    }
    Ok(rows)
}

// The tables' parts.
#[derive(Drop)]
struct Parts {
    shape: ShapeTables,
    rows: RowsList,
}

fn parts_of(alloc: Global, made: GraphTables) -> Result<Parts, AllocError>
    ensures shape { IfOk result (λ parts. parts.shape ≡ shape_of (map plain_of made)) }
    ensures rows { IfOk result (λ parts. parts.rows ≡ rows_of (map plain_of made)) }
{
    let mut parts = Parts {
        shape: ShapeTables::new(alloc),
        rows: RowsList::new(alloc),
    };
    for table in made.into_vec() {
        parts.shape.push(table.table)?;
        parts.rows.push(rows_from(alloc, table.rows)?)?;
    }
    Ok(parts)
}

/// The tables with their rows. Refused for want of memory alone.
pub(crate) fn tables_from(alloc: Global, made: GraphTables) -> Result<Tables, AllocError>
    requires shape { AreOfShape (map plain_of made) }
    requires limits { IsWithinLimits (map plain_of made) }
    ensures { IfOk result (λ tables. tables ≡ map plain_of made) }
{
    let parts = parts_of(alloc, made)?;
    match Shape::new(parts.shape) {
        Some(shape) => Ok(Tables {
            shape,
            rows: parts.rows,
        }),
        None => unreachable!(),
    }
}
