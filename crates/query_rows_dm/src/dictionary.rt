// The values of tables and their numbers.
ghost use Rattle.std.specs.Prelude.{◌≡◌, ◌+◌, ◌<◌, [], None, Some, IfOk, length, slice_index_or};
ghost use Rattle.query_rows_dm.specs.Numbers.{AreGrown, AreOneToOne, IsNumbered, IsSought, cell_of};

use crate::key::Key;
use indexmap::IndexSet;
use std::alloc::{AllocError, Global};
use std::marker::Model;
use value_dm::{Cell, TryCopy, Value};

/// The number of NULL.
pub const NULL: u32 = 1;

// The number of the first value.
const FIRST: u32 = 2;

// As many values as there are numbers for.
const MOST_VALUES: usize = 4_294_967_293;

/// The values of some tables, each with a number: its place, counted from 0, plus 2. A contract sees it as the list of the
/// values.
#[derive(Drop)]
pub struct Dictionary<'a> {
    values: IndexSet<Key<'a>>,
}

impl<'a> Model for Dictionary<'a> {
    ghost use Rattle.std.specs.Prelude.{◌≤◌, List, length, map};
    ghost use Rattle.value_dm.specs.declared.value.Value.{Value as AnyValue};

    ghost Value = { List AnyValue };

    ghost view = { λ d. map (λ k. k.value.now) d.values.keys };

    ghost invariant = { λ d. length d.values.keys ≤ 4294967293 };
}

impl<'a> Dictionary<'a> {
    /// No values. Takes no memory.
    pub fn new(alloc: Global) -> Dictionary<'a>
        ensures { result ≡ [] }
    {
        Dictionary {
            values: IndexSet::new(alloc),
        }
    }

    // The number of a value, which is added where it is new.
    fn number_of_value(&mut self, value: &'a Value) -> Result<u32, AllocError>
        ensures { IfOk result (λ n. IsNumbered self.old self.new (Some value.now) n) }
    {
        if self.values.len() >= MOST_VALUES {
            return Err(AllocError);
        }
        let (place, _) = self.values.insert_full(Key { value })?;
        Ok(place as u32 + FIRST)
    }

    /// The number of a cell, whose value is added where it is new. Refused for want of memory, and where there are more
    /// values than numbers.
    pub fn number_of(&mut self, cell: &'a Cell) -> Result<u32, AllocError>
        ensures { IfOk result (λ n. IsNumbered self.old self.new cell.now n) }
    {
        match cell {
            None => Ok(NULL),
            Some(value) => self.number_of_value(value),
        }
    }

    /// The number of the row's cell at the place, counted from 0; NULL's where there is none. Refused as `number_of`.
    pub fn number_at(&mut self, row: &'a [Cell], place: usize) -> Result<u32, AllocError>
        ensures { IfOk result (λ n. IsNumbered self.old self.new (slice_index_or row.now place None) n) }
    {
        match row.get(place) {
            None => Ok(NULL),
            Some(cell) => self.number_of(cell),
        }
    }

    /// The number of a value, or 0 where it has none.
    pub fn sought(&self, value: &Value) -> u32
        ensures { AreOneToOne self.now → IsSought self.now value.now result }
    {
        match self.values.get_index_of(&Key { value }) {
            None => 0,
            Some(place) => place as u32 + FIRST,
        }
    }

    /// The cell of a number. Refused for want of memory alone.
    pub fn cell(&self, alloc: Global, number: u32) -> Result<Cell, AllocError>
        requires { number < length self.now + 2 }
        ensures { IfOk result (λ cell. cell ≡ cell_of self.now number) }
    {
        if number < FIRST {
            return Ok(None);
        }
        let key = &self.values[(number - FIRST) as usize];
        Ok(Some(key.value.copy(alloc)?))
    }
}
