ghost use Rattle.std.specs.Prelude.{◌≡◌, ◌≤◌, ◌<◌, ◌+◌, ◌↔◌, ℕ, true, false, IfOk, IsTrue, Some, length, slice_get};
ghost use Rattle.std.specs.Option.{option_cmp};
ghost use Rattle.std.specs.Ordering.{is_lt};
ghost use Rattle.std.specs.List.Sorted.{IsPartitionPoint, IsPermutation};
ghost use Rattle.members_dm.specs.Elements.{Repeats};
ghost use Rattle.members_dm.specs.InOrder.{AreInOrder, AreRisingBy, AreSameAt, IsFirstPlace, position_cmp, positions_below};
ghost use Rattle.members_dm.specs.Membership.{IsIn};

use std::alloc::{AllocError, Global};
use std::cmp::Ordering;
use std::marker::Model;
use value_dm::{ExactEq, same};

// How the items at two positions stand to each other; before all is a position without one.
fn compare_items<K: Ord>(items: &[K], left: usize, right: usize) -> Ordering
    ensures { result ≡ option_cmp K.cmp (slice_get items.now left) (slice_get items.now right) }
{
    match items.get(left) {
        None => match items.get(right) {
            None => Ordering::Equal,
            Some(_) => Ordering::Less,
        },
        Some(item) => match items.get(right) {
            None => Ordering::Greater,
            Some(other) => item.cmp(other),
        },
    }
}

fn compare_positions<K: Ord>(items: &[K], left: usize, right: usize) -> Ordering
    ensures { result ≡ position_cmp K.cmp items.now left right }
{
    match compare_items(items, left, right) {
        Ordering::Equal => left.cmp(&right),
        other => other,
    }
}

// How the item at a position stands to another.
fn compare_to<K: Ord>(items: &[K], position: usize, key: &K) -> Ordering
    ensures { result ≡ option_cmp K.cmp (slice_get items.now position) (Some key.now) }
{
    match items.get(position) {
        None => Ordering::Less,
        Some(item) => item.cmp(key),
    }
}

fn positions(alloc: Global, count: usize) -> Result<Vec<usize>, AllocError>
    ensures { IfOk result (λ made. made.items ≡ positions_below count) }
{
    let mut made = Vec::with_capacity(alloc, count)?;
    for position in 0..count {
        made.push(position)?;
    }
    Ok(made)
}

fn sort_positions<K: Ord>(items: &[K], order: &mut Vec<usize>)
    ensures moved { IsPermutation order.old.items order.new.items }
    ensures rising { AreRisingBy K.cmp items.now order.new.items }
{
    order.sort_unstable_by(|left, right| compare_positions(items, *left, *right));
}

// Where the positions begin whose items aren't before the key.
fn start_of<K: Ord + ExactEq>(items: &[K], order: &[usize], key: &K) -> usize
    requires { AreInOrder K.cmp items.now order.now }
    ensures bound { result ≤ length order.now }
    ensures point { IsPartitionPoint (λ p. is_lt (option_cmp K.cmp (slice_get items.now p) (Some key.now)) ≡ true) (λ p. is_lt (option_cmp K.cmp (slice_get items.now p) (Some key.now)) ≡ false) order.now result }
{
    order.partition_point(|position| compare_to(items, *position, key).is_lt())
}

fn stands_at<K: ExactEq>(items: &[K], position: usize, key: &K) -> bool
    ensures { IsTrue result ↔ (slice_get items.now position ≡ Some key.now) }
{
    match items.get(position) {
        None => false,
        Some(item) => same(item, key),
    }
}

fn first_place<K: Ord + ExactEq>(items: &[K], order: &[usize], key: &K) -> Option<usize>
    requires { AreInOrder K.cmp items.now order.now }
    ensures { IsFirstPlace items.now key.now result }
{
    match order.get(start_of(items, order, key)) {
        None => None,
        Some(position) => {
            if stands_at(items, *position, key) {
                Some(*position)
            } else {
                None
            }
        }
    }
}

// Whether one item stands at both positions.
fn are_same_at<K: ExactEq>(items: &[K], left: usize, right: usize) -> bool
    ensures { IsTrue result ↔ AreSameAt items.now left right }
{
    match items.get(left) {
        None => false,
        Some(item) => stands_at(items, right, item),
    }
}

fn some_stands_twice<K: Ord + ExactEq>(items: &[K], order: &[usize]) -> bool
    requires { AreInOrder K.cmp items.now order.now }
    ensures { IsTrue result ↔ Repeats items.now }
{
    for next in 1..order.len() {
        if are_same_at(items, order[next - 1], order[next]) {
            return true;
        }
    }
    false
}

/// Items by their order, which contracts see as the list of the items. One is found by halving,
/// whatever the items are.
#[derive(Drop)]
pub struct Index<K: Ord + ExactEq> {
    items: Vec<K>,
    order: Vec<usize>,
}

impl<K: Ord + ExactEq> Model for Index<K> {
    ghost use Rattle.std.specs.Prelude.{List};
    ghost use Rattle.members_dm.specs.InOrder.{AreInOrder};

    ghost Value = { List K };

    ghost view = { λ index. index.items.items };

    ghost invariant = { λ index. AreInOrder K.cmp index.items.items index.order.items };
}

impl<K: Ord + ExactEq + Drop> Index<K> {
    /// The index of the items. Refused for want of memory alone.
    pub fn new(alloc: Global, items: Vec<K>) -> Result<Index<K>, AllocError>
        ensures { IfOk result (λ index. index ≡ items.items) }
    {
        let mut order = positions(alloc, items.len())?;
        sort_positions(items.as_slice(), &mut order);
        Ok(Index { items, order })
    }

    /// The first position of the item, counted from 0, or None where it isn't there.
    pub fn place(&self, item: &K) -> Option<usize>
        ensures { IsFirstPlace self.now item.now result }
    {
        first_place(self.items.as_slice(), self.order.as_slice(), item)
    }

    /// Whether an item stands twice.
    pub fn repeats(&self) -> bool
        ensures { IsTrue result ↔ Repeats self.now }
    {
        some_stands_twice(self.items.as_slice(), self.order.as_slice())
    }
}
