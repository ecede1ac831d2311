// Where the runs of triads with one first number begin, so that a search need not halve all triads.
ghost use Rattle.std.specs.Prelude.{◌≡◌, ◌<◌, ◌≤◌, ℕ, EachIndex, IfOk, OnOk, length, slice_index};
ghost use Rattle.store_dm.specs.Starts.{AreStarts, IsRun};
ghost use Rattle.store_dm.specs.Triads.{IsRising};

use crate::listing::{Triad, part};
use std::alloc::{AllocError, Global};

// Gives this start to each number up to `first` that has none.
fn push_until(starts: &mut Vec<u32>, first: u32, start: u32) -> Result<(), AllocError>
    ensures all { OnOk result (first < length starts.new.items) }
    ensures kept { OnOk result (EachIndex starts.old.items (λ n. slice_index starts.new.items n ≡ slice_index starts.old.items n)) }
    ensures added { OnOk result ((n : ℕ) → length starts.old.items ≤ n → n < length starts.new.items → (n ≤ first) × (slice_index starts.new.items n ≡ start)) }
{
    while starts.len() <= first as usize {
        starts.push(start)?;
    }
    Ok(())
}

/// The start of each first number up to the last one, and of the number after it. There are none for more triads than a `u32` counts.
pub fn starts_of(alloc: Global, items: &[Triad]) -> Result<Vec<u32>, AllocError>
    requires { IsRising items.now }
    ensures { IfOk result (λ made. AreStarts made.items items.now) }
{
    let mut starts = Vec::new(alloc);
    if items.len() > u32::MAX as usize {
        return Ok(starts);
    }
    for (index, triad) in items.iter().enumerate() {
        push_until(&mut starts, triad.first, index as u32)?;
    }
    starts.push(items.len() as u32)?;
    Ok(starts)
}

/// The run of those with this first number, or all triads where the number has no start.
pub fn run_of<'a>(items: &'a [Triad], starts: &[u32], first: u32) -> &'a [Triad]
    requires rising { IsRising items.now }
    requires begun { AreStarts starts.now items.now }
    ensures { IsRun first items.now result.now }
{
    let number = first as usize;
    if number + 1 < starts.len() {
        part(items, starts[number] as usize, starts[number + 1] as usize)
    } else {
        items
    }
}
