ghost use Rattle.std.specs.Prelude.{◌≡◌, ◌<◌, [], ◌∷◌, ◌++◌, length, slice_index_or, OnOk, OnErr, IfErr};

use std::alloc::{AllocError, Global};
use std::marker::Model;
use value_dm::{AllocFailed, Cell, Cells, Sequence, TryCopy};

/// The rows of a table, which contracts see as a list of lists of cells. It keeps its allocator.
#[derive(Drop)]
pub struct Rows {
    rows: Sequence<Cells>,
}

impl Model for Rows {
    ghost use Rattle.std.specs.Prelude.{List};
    ghost use Rattle.std.specs.declared.option.Option.{Option};
    ghost use Rattle.value_dm.specs.declared.value.Value.{Value as AnyValue};

    ghost Value = { List (List (Option AnyValue)) };

    ghost view = { λ rows. rows.rows };
}

impl Rows {
    /// No rows. Takes no memory.
    pub fn new(alloc: Global) -> Rows
        ensures { result ≡ [] }
    {
        Rows {
            rows: Sequence::new(alloc),
        }
    }

    /// Appends the row. For want of memory it gives the row back and changes nothing.
    pub fn push(&mut self, item: Cells) -> Result<(), AllocFailed<Cells>>
        ensures ok { OnOk result (self.new ≡ self.old ++ item ∷ []) }
        ensures err { OnErr result (self.new ≡ self.old) }
        ensures given_back { IfErr result (λ refused. refused.item ≡ item) }
    {
        self.rows.push(item)
    }

    /// The number of rows.
    pub fn len(&self) -> usize
        ensures { result ≡ length self.now }
    {
        self.rows.len()
    }

    /// The rows in order.
    pub fn as_slice(&self) -> &[Cells]
        ensures { result.now ≡ self.now }
    {
        self.rows.as_slice()
    }

    /// The cells of the row at this place, counted from 0, in the columns' order.
    pub fn row(&self, i: usize) -> &[Cell]
        requires { i < length self.now }
        ensures { result.now ≡ slice_index_or self.now i [] }
    {
        self.rows.as_slice()[i].as_slice()
    }
}

impl TryCopy for Rows {
    fn copy(&self, alloc: Global) -> Result<Rows, AllocError> {
        Ok(Rows {
            rows: self.rows.copy(alloc)?,
        })
    }
}
