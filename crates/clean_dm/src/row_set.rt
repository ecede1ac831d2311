ghost use Rattle.std.specs.Prelude.{◌≡◌, ◌↔◌, ℕ, ◌+◌, IfNone, IfSome, IsTrue, OnOk};
ghost use Rattle.clean_dm.specs.RowSets.{Gains, Has, IsFirstOf, Loses, set_len};

use std::alloc::{AllocError, Global};
use std::collections::BTreeSet;

/// A set of rows, by the table's place and the row's, both counted from 0.
#[derive(Drop)]
pub struct RowSet {
    pairs: BTreeSet<(u32, usize)>,
}

impl RowSet {
    /// No rows. Takes no memory.
    pub fn new(alloc: Global) -> RowSet
        ensures { (t i : ℕ) → ¬ Has result t i }
    {
        RowSet {
            pairs: BTreeSet::new(alloc),
        }
    }

    /// Whether the row is there.
    pub fn has(&self, table: u32, row: usize) -> bool
        ensures { IsTrue result ↔ Has self.now table row }
    {
        self.pairs.contains(&(table, row))
    }

    /// Puts the row in. For want of memory the set stays as it is.
    pub fn insert(&mut self, table: u32, row: usize) -> Result<(), AllocError>
        ensures { OnOk result (Gains self.old self.new table row) }
    {
        self.pairs.insert((table, row))?;
        Ok(())
    }

    /// Takes the row out.
    pub fn remove(&mut self, table: u32, row: usize)
        requires { Has self.old table row }
        ensures rest { Loses self.old self.new table row }
        ensures fewer { set_len self.new + 1 ≡ set_len self.old }
    {
        let _was_there = self.pairs.remove(&(table, row));
    }

    /// Takes out the first row, by table and row.
    pub fn pop_first(&mut self) -> Option<(u32, usize)>
        ensures none { IfNone result ((t i : ℕ) → ¬ Has self.old t i) }
        ensures first { IfSome result (λ spot. IsFirstOf self.old spot.0 spot.1) }
        ensures rest { IfSome result (λ spot. Loses self.old self.new spot.0 spot.1) }
        ensures fewer { IfSome result (λ _. set_len self.new + 1 ≡ set_len self.old) }
    {
        self.pairs.pop_first()
    }
}
