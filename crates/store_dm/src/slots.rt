ghost use Rattle.std.specs.Prelude.{◌≡◌, ◌||◌, ◌&&◌};
ghost use Rattle.store_dm.specs.Slots as spec;

use names_dm::Var;
use std::alloc::{AllocError, Global};
use value_dm::{TryCopy, same};

/// A part of a triple to look for: a variable, the number of a term, or a term that the graph hasn't.
#[derive(Drop)]
pub enum Slot {
    Var(Var),
    Fixed(u32),
    Missing,
}

impl TryCopy for Slot {
    fn copy(&self, alloc: Global) -> Result<Slot, AllocError> {
        match self {
            Slot::Var(name) => Ok(Slot::Var(name.copy(alloc)?)),
            Slot::Fixed(number) => Ok(Slot::Fixed(*number)),
            Slot::Missing => Ok(Slot::Missing),
        }
    }
}

pub fn is_missing(slot: &Slot) -> bool
    ensures { result ≡ spec.is_missing slot.now }
{
    match slot {
        Slot::Var(_) => false,
        Slot::Fixed(_) => false,
        Slot::Missing => true,
    }
}

// The number to look for, 0 where every number will do.
pub fn sought(slot: &Slot) -> u32
    ensures { result ≡ spec.sought slot.now }
{
    match slot {
        Slot::Var(_) => 0,
        Slot::Fixed(number) => *number,
        Slot::Missing => 0,
    }
}

fn is_variable(slot: &Slot, name: &Var) -> bool
    ensures { result ≡ spec.is_variable slot.now name.now }
{
    match slot {
        Slot::Var(var) => same(var, name),
        Slot::Fixed(_) => false,
        Slot::Missing => false,
    }
}

// Whether both are one variable.
pub fn is_same_variable(a: &Slot, b: &Slot) -> bool
    ensures { result ≡ spec.is_same_variable a.now b.now }
{
    match b {
        Slot::Var(name) => is_variable(a, name),
        Slot::Fixed(_) => false,
        Slot::Missing => false,
    }
}
