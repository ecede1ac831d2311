// Triads of numbers in order, and the range of those that begin with some numbers.
ghost use Rattle.std.specs.Prelude.{◌≡◌, ◌≢◌, ◌↔◌, ◌<◌, ◌≤◌, AllPairs, Contains, IfOk, length, take, drop, ◌-◌, true, false, not};
ghost use Rattle.std.specs.List.Sorted.{IsPartitionPoint};
ghost use Rattle.store_dm.specs.Triads as spec;
ghost use Rattle.store_dm.specs.Triads.{IsPrefix, IsRising, FitsAll};
ghost use Rattle.store_dm.specs.declared.listing.Triad.{Triad as TheTriad};

use crate::starts::{run_of, starts_of};
use std::alloc::{AllocError, Global};
use std::marker::Model;

/// Three numbers, ordered by the first, then the second, then the third.
#[derive(Clone, Copy, Debug, PartialEq, Eq, PartialOrd, Ord)]
pub struct Triad {
    pub first: u32,
    pub second: u32,
    pub third: u32,
}

// Whether it comes before all that begin as this one.
fn is_below(from: Triad, x: &Triad) -> bool
    ensures { result ≡ spec.is_below from x.now }
{
    (x.first < from.first)
        | ((x.first == from.first)
            & ((x.second < from.second) | ((x.second == from.second) & (x.third < from.third))))
}

// Whether it comes after all that begin as this one.
fn is_above(from: Triad, x: &Triad) -> bool
    ensures { result ≡ spec.is_above from x.now }
{
    (from.first != 0)
        & ((from.first < x.first)
            | ((x.first == from.first)
                & ((from.second != 0)
                    & ((from.second < x.second)
                        | ((x.second == from.second)
                            & ((from.third != 0) & (from.third < x.third)))))))
}

// Where those that begin as `from` begin, found by halving.
fn start_of(items: &[Triad], from: Triad) -> usize
    requires { IsRising items.now }
    ensures bound { result ≤ length items.now }
    ensures point { IsPartitionPoint (λ y. spec.is_below from y ≡ true) (λ y. spec.is_below from y ≡ false) items.now result }
{
    items.partition_point(|x| is_below(from, x))
}

// Where they end.
fn end_of(items: &[Triad], from: Triad) -> usize
    requires { IsRising items.now }
    ensures bound { result ≤ length items.now }
    ensures point { IsPartitionPoint (λ y. not (spec.is_above from y) ≡ true) (λ y. not (spec.is_above from y) ≡ false) items.now result }
{
    items.partition_point(|x| !is_above(from, x))
}

// A part of a list.
pub fn part(items: &[Triad], start: usize, end: usize) -> &[Triad]
    requires low { start ≤ end }
    requires high { end ≤ length items.now }
    ensures { result.now ≡ take (end - start) (drop start items.now) }
{
    &items[start..end]
}

// Those that begin with the numbers of `from` that are not 0, found by halving.
fn range_of(items: &[Triad], from: Triad) -> &[Triad]
    requires rising { IsRising items.now }
    requires prefix { IsPrefix from }
    ensures exact { (x : TheTriad) → Contains result.now x ↔ (Contains items.now x × FitsAll from x) }
    ensures once { AllPairs (λ x y. x ≢ y) result.now }
{
    let start = start_of(items, from);
    let end = end_of(items, from);
    part(items, start, end)
}

/// Triads in order, each once.
#[derive(Drop)]
pub struct Listing {
    items: Vec<Triad>,
    // Where the triads of each first number begin.
    starts: Vec<u32>,
}

impl Model for Listing {
    ghost use Rattle.std.specs.Prelude.{List};
    ghost use Rattle.store_dm.specs.declared.listing.Triad.{Triad};
    ghost use Rattle.store_dm.specs.Starts.{IsListing};

    ghost Value = { List Triad };

    ghost view = { λ listing. listing.items.items };

    ghost invariant = { λ listing. IsListing listing.items.items listing.starts.items };
}

impl Listing {
    /// The triads, sorted, and each once.
    pub fn new(alloc: Global, items: Vec<Triad>) -> Result<Listing, AllocError>
        ensures { IfOk result (λ made. (x : TheTriad) → Contains made x ↔ Contains items.items x) }
    {
        let mut items = items;
        items.sort_unstable();
        items.dedup();
        let starts = starts_of(alloc, items.as_slice())?;
        Ok(Listing { items, starts })
    }

    pub fn len(&self) -> usize
        ensures { result ≡ length self.now }
    {
        self.items.len()
    }

    /// Those that begin with the numbers of `from` that are not 0, found by halving the run of its first number.
    pub fn range(&self, from: Triad) -> &[Triad]
        requires { IsPrefix from }
        ensures exact { (x : TheTriad) → Contains result.now x ↔ (Contains self.now x × FitsAll from x) }
        ensures once { AllPairs (λ x y. x ≢ y) result.now }
    {
        let items = self.items.as_slice();
        if from.first == 0 {
            items
        } else {
            range_of(run_of(items, self.starts.as_slice(), from.first), from)
        }
    }
}
