ghost use Rattle.std.specs.Prelude.{◌≡◌, ◌<◌, ◌+◌, ℕ, List, IfOk, length, map};
ghost use Rattle.names_dm.specs.Variables.{variable_of};
ghost use Rattle.solutions_dm.specs.Columns.{number_at};
ghost use Rattle.schema_dm.specs.Naming.{Name};
ghost use Rattle.algebra_dm.specs.Attributes.{AreAttributes};
ghost use Rattle.algebra_dm.specs.Nodes.{IsWellFormed};
ghost use Rattle.query_rows_dm.specs.Answers.{AreCellsIn, AreRows};
ghost use Rattle.query_rows_dm.specs.Numbers.{cell_of};

use crate::dictionary::Dictionary;
use crate::evaluation::relation_of;
use crate::variables::variables_of;
use algebra_dm::{Query, attributes, table_names};
use names_dm::Var;
use schema_dm::Index;
use solutions_dm::{Solutions, distinct};
use std::alloc::{AllocError, Global};
use table_csv::{Database, Rows};
use value_dm::{Cell, Cells};

// The cell of a row under a variable.
fn cell(
    alloc: Global,
    var: &Var,
    rows: &Solutions,
    row: usize,
    dictionary: &Dictionary,
) -> Result<Cell, AllocError>
    requires row { row < rows.now.rows }
    requires number { number_at rows.now.columns row var.now < length dictionary.now + 2 }
    ensures { IfOk result (λ cell. cell ≡ cell_of dictionary.now (number_at rows.now.columns row var.now)) }
{
    match rows.column(var) {
        None => Ok(None),
        Some(numbers) => dictionary.cell(alloc, numbers[row]),
    }
}

// The cells of a row under variables.
fn cells(
    alloc: Global,
    vars: &[Var],
    rows: &Solutions,
    row: usize,
    dictionary: &Dictionary,
) -> Result<Cells, AllocError>
    requires row { row < rows.now.rows }
    requires numbers { (x : List ℕ) → number_at rows.now.columns row x < length dictionary.now + 2 }
    ensures { IfOk result (λ cells. cells ≡ map (λ x. cell_of dictionary.now (number_at rows.now.columns row x)) vars.now) }
{
    let mut cells = Cells::new(alloc);
    for var in vars {
        cells.push(cell(alloc, var, rows, row, dictionary)?)?;
    }
    Ok(cells)
}

// The cells of all rows under variables.
fn all_cells(
    alloc: Global,
    vars: &[Var],
    rows: &Solutions,
    dictionary: &Dictionary,
) -> Result<Rows, AllocError>
    requires { (row : ℕ) (x : List ℕ) → row < rows.now.rows → number_at rows.now.columns row x < length dictionary.now + 2 }
    ensures { IfOk result (λ made. AreCellsIn dictionary.now vars.now rows.now made) }
{
    let mut made = Rows::new(alloc);
    for row in 0..rows.len() {
        made.push(cells(alloc, vars, rows, row, dictionary)?)?;
    }
    Ok(made)
}

/// The rows of a well-formed query: exactly the cells of its tuples, each tuple once, under its attributes in the order of
/// their bytes, as `attributes` tells them. The rows come in no particular order. Values are told apart by kind and value;
/// NULL is equal to nothing in joins and where an attribute is compared with a value, and to NULL in unions, differences and
/// projections. Refused for want of memory alone; more than 4,294,967,293 different values are taken for that.
pub fn rows(alloc: Global, query: &Query, database: &Database) -> Result<Rows, AllocError>
    requires { IsWellFormed database.now.tables query.now }
    ensures { IfOk result (λ rows. (names : List Name) → AreAttributes database.now.tables query.now names → AreRows database.now query.now names rows) }
{
    let schema = database.schema();
    let names = attributes(alloc, schema, query)?;
    let vars = variables_of(alloc, names.as_slice())?;
    let tables = Index::new(alloc, table_names(alloc, schema.tables())?)?;
    let mut dictionary = Dictionary::new(alloc);
    let relation = relation_of(alloc, database, &tables, &mut dictionary, query)?;
    let each = distinct(alloc, &relation.rows)?;
    all_cells(alloc, vars.as_slice(), &each, &dictionary)
}
