ghost use Rattle.std.specs.Prelude.{◌≡◌, ◌<◌, ◌↔◌, ℕ, List, IfOk};
ghost use Rattle.solutions_dm.specs.Columns as spec;
ghost use Rattle.solutions_dm.specs.Table.{HasRow, IsColumn, IsTable};

use crate::columns::{Column, column_of, number_at};
use names_dm::Var;
use std::alloc::{AllocError, Global};
use std::marker::Model;
use value_dm::Sequence;

/// Solution mappings (SPARQL 1.1 Query Language, section 18.1.8) as rows of numbers, one column a variable. Contracts
/// see the columns and how many rows there are; each row is a mapping from variables to numbers, where 0 is unbound.
#[derive(Drop)]
pub struct Solutions {
    pub(crate) columns: Sequence<Column>,
    pub(crate) rows: usize,
}

impl Model for Solutions {
    ghost use Rattle.solutions_dm.specs.Table.{Table, IsTable};

    ghost Value = { Table };

    ghost view = { λ s. record { columns = s.columns; rows = s.rows } };

    ghost invariant = { λ s. IsTable (record { columns = s.columns; rows = s.rows }) };
}

impl Solutions {
    /// The rows of these columns, of which each has `rows` numbers, and no two have one name.
    pub fn of_columns(columns: Sequence<Column>, rows: usize) -> Solutions
        requires { IsTable (record { columns = columns; rows = rows }) }
        ensures { result ≡ record { columns = columns; rows = rows } }
    {
        Solutions { columns, rows }
    }

    /// How many rows there are.
    pub fn len(&self) -> usize
        ensures { result ≡ self.now.rows }
    {
        self.rows
    }

    /// The numbers of a variable, one a row in the order of the rows; None exactly where it has no column.
    pub fn column(&self, var: &Var) -> Option<&[u32]>
        ensures { IsColumn self.now var.now result }
    {
        column_of(self.columns.as_slice(), var)
    }

    // The number of a variable in a row.
    pub(crate) fn number(&self, row: usize, name: &Var) -> u32
        requires { row < self.now.rows }
        ensures { result ≡ spec.number_at self.now.columns row name.now }
    {
        number_at(self.columns.as_slice(), self.rows, row, name)
    }
}

/// One row that binds nothing.
pub fn unit(alloc: Global) -> Result<Solutions, AllocError>
    ensures one { IfOk result (λ s. s.rows ≡ 1) }
    ensures unbound { IfOk result (λ s. (m : List ℕ → ℕ) → HasRow s m ↔ ((x : List ℕ) → m x ≡ 0)) }
{
    Ok(Solutions {
        columns: Sequence::new(alloc),
        rows: 1,
    })
}
