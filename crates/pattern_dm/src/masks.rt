// Masks over the numbers of a column, by lanes.
ghost use Rattle.std.specs.Prelude.{◌≡◌, ◌≢◌, ◌==◌, ◌&&◌, IfOk, IsTrue, not, length, map, replicate, slice_index};
ghost use Rattle.std.specs.Simd.Lanes.{zip2};
ghost use Rattle.lanes_dm.specs.Flags.{flag};
ghost use Rattle.pattern_dm.specs.Masks.{AreSplit, Marks, both_flags, either_flags};

use lanes_dm::{and_into, mask_eq, mask_ne, mask_nonzero, mask_same};
use std::alloc::{AllocError, Global};

/// A byte for each row where a condition is true, and one for each where it is false, each 0 elsewhere. A row in
/// neither has an error.
#[derive(Drop)]
pub struct Masks {
    pub holds: Vec<u8>,
    pub fails: Vec<u8>,
}

// One flag for all rows.
fn filled(alloc: Global, rows: usize, value: bool) -> Result<Vec<u8>, AllocError>
    ensures { IfOk result (λ mask. mask.items ≡ replicate rows (flag value)) }
{
    vec![in alloc; u8::from(value); rows]
}

fn equal(alloc: Global, numbers: &[u32], id: u32) -> Result<Vec<u8>, AllocError>
    ensures { IfOk result (λ mask. mask.items ≡ map (λ x. flag (x == id)) numbers.now) }
{
    let mut mask = vec![in alloc; 0u8; numbers.len()]?;
    mask_eq(numbers, id, &mut mask);
    Ok(mask)
}

fn unequal(alloc: Global, numbers: &[u32], id: u32) -> Result<Vec<u8>, AllocError>
    ensures { IfOk result (λ mask. mask.items ≡ map (λ x. flag (not (x == id))) numbers.now) }
{
    let mut mask = vec![in alloc; 0u8; numbers.len()]?;
    mask_ne(numbers, id, &mut mask);
    Ok(mask)
}

fn nonzero(alloc: Global, numbers: &[u32]) -> Result<Vec<u8>, AllocError>
    ensures { IfOk result (λ mask. mask.items ≡ map (λ x. flag (not (x == 0))) numbers.now) }
{
    let mut mask = vec![in alloc; 0u8; numbers.len()]?;
    mask_nonzero(numbers, &mut mask);
    Ok(mask)
}

fn same_flags(alloc: Global, a: &[u32], b: &[u32]) -> Result<Vec<u8>, AllocError>
    requires { length b.now ≡ length a.now }
    ensures { IfOk result (λ mask. mask.items ≡ zip2 (λ x y. flag (x == y)) a.now b.now) }
{
    let mut mask = vec![in alloc; 0u8; a.len()]?;
    mask_same(a, b, &mut mask);
    Ok(mask)
}

// Marks where they have one number.
fn alike(alloc: Global, a: &[u32], b: &[u32]) -> Result<Vec<u8>, AllocError>
    requires { length b.now ≡ length a.now }
    ensures { IfOk result (λ mask. Marks (length a.now) (λ i. slice_index a.now i ≡ slice_index b.now i) mask.items) }
{
    let mask = same_flags(alloc, a, b)?;
    Ok(mask)
}

fn either_flag(x: u8, y: u8) -> u8
    ensures { result ≡ flag (not (x == 0 && y == 0)) }
{
    u8::from(!(x == 0 && y == 0))
}

// Marks where one of two masks does.
#[tactic(auto, using(lanes_dm::proofs::Masks::zip2_more))]
fn either(alloc: Global, a: &[u8], b: &[u8]) -> Result<Vec<u8>, AllocError>
    requires { length b.now ≡ length a.now }
    ensures { IfOk result (λ mask. mask.items ≡ either_flags a.now b.now) }
{
    let mut mask = Vec::new(alloc);
    for i in 0..a.len() {
        mask.push(either_flag(a[i], b[i]))?;
    }
    Ok(mask)
}

// Marks where a mask does not.
fn negated(alloc: Global, mask: &[u8]) -> Result<Vec<u8>, AllocError>
    ensures { IfOk result (λ made. made.items ≡ map (λ x. flag (x == 0)) mask.now) }
{
    let mut made = Vec::new(alloc);
    for byte in mask {
        made.push(u8::from(*byte == 0))?;
    }
    Ok(made)
}

fn both(a: Vec<u8>, b: &[u8]) -> Vec<u8>
    requires { length b.now ≡ length a.items }
    ensures { result.items ≡ both_flags a.items b.now }
{
    let mut a = a;
    and_into(&mut a, b);
    a
}

impl Masks {
    /// Those of the negation.
    pub fn not(self) -> Masks
        ensures holds { result.holds.items ≡ self.fails.items }
        ensures fails { result.fails.items ≡ self.holds.items }
    {
        let Masks { holds, fails } = self;
        Masks {
            holds: fails,
            fails: holds,
        }
    }

    /// Those of the conjunction.
    pub fn and(self, alloc: Global, other: &Masks) -> Result<Masks, AllocError>
        requires holding { length other.now.holds.items ≡ length self.holds.items }
        requires failing { length other.now.fails.items ≡ length self.fails.items }
        ensures { IfOk result (λ masks. (masks.holds.items ≡ both_flags self.holds.items other.now.holds.items) × (masks.fails.items ≡ either_flags self.fails.items other.now.fails.items)) }
    {
        let Masks { holds, fails } = self;
        let fails = either(alloc, fails.as_slice(), other.fails.as_slice())?;
        let holds = both(holds, other.holds.as_slice());
        Ok(Masks { holds, fails })
    }

    /// Those of the disjunction.
    pub fn or(self, alloc: Global, other: &Masks) -> Result<Masks, AllocError>
        requires holding { length other.now.holds.items ≡ length self.holds.items }
        requires failing { length other.now.fails.items ≡ length self.fails.items }
        ensures { IfOk result (λ masks. (masks.holds.items ≡ either_flags self.holds.items other.now.holds.items) × (masks.fails.items ≡ both_flags self.fails.items other.now.fails.items)) }
    {
        let Masks { holds, fails } = self;
        let holds = either(alloc, holds.as_slice(), other.holds.as_slice())?;
        let fails = both(fails, other.fails.as_slice());
        Ok(Masks { holds, fails })
    }
}

// Marks where both are bound.
fn both_bound(alloc: Global, a: &[u32], b: &[u32]) -> Result<Vec<u8>, AllocError>
    requires { length b.now ≡ length a.now }
    ensures { IfOk result (λ mask. Marks (length a.now) (λ i. (slice_index a.now i ≢ 0) × (slice_index b.now i ≢ 0)) mask.items) }
{
    let first = nonzero(alloc, a)?;
    let second = nonzero(alloc, b)?;
    let mask = both(first, second.as_slice());
    Ok(mask)
}

// Marks where they have different numbers.
fn differing(alloc: Global, a: &[u32], b: &[u32]) -> Result<Vec<u8>, AllocError>
    requires { length b.now ≡ length a.now }
    ensures { IfOk result (λ mask. Marks (length a.now) (λ i. slice_index a.now i ≢ slice_index b.now i) mask.items) }
{
    let same = alike(alloc, a, b)?;
    let mask = negated(alloc, same.as_slice())?;
    Ok(mask)
}

/// All rows are true, or all are false.
pub fn constant(alloc: Global, rows: usize, value: bool) -> Result<Masks, AllocError>
    ensures { IfOk result (λ masks. AreSplit rows (λ _. IsTrue value) (λ _. IsTrue (not value)) masks) }
{
    let holds = filled(alloc, rows, value)?;
    let fails = filled(alloc, rows, !value)?;
    Ok(Masks { holds, fails })
}

/// All rows have an error.
pub fn errors(alloc: Global, rows: usize) -> Result<Masks, AllocError>
    ensures { IfOk result (λ masks. AreSplit rows (λ _. ⊥) (λ _. ⊥) masks) }
{
    let holds = filled(alloc, rows, false)?;
    let fails = filled(alloc, rows, false)?;
    Ok(Masks { holds, fails })
}

/// Whether a variable is bound.
pub fn is_bound(alloc: Global, numbers: &[u32]) -> Result<Masks, AllocError>
    ensures { IfOk result (λ masks. AreSplit (length numbers.now) (λ i. slice_index numbers.now i ≢ 0) (λ i. slice_index numbers.now i ≡ 0) masks) }
{
    let holds = nonzero(alloc, numbers)?;
    let fails = equal(alloc, numbers, 0)?;
    Ok(Masks { holds, fails })
}

/// Whether a variable that is bound has this number.
pub fn is_number(alloc: Global, numbers: &[u32], id: u32) -> Result<Masks, AllocError>
    ensures { IfOk result (λ masks. AreSplit (length numbers.now) (λ i. slice_index numbers.now i ≡ id) (λ i. (slice_index numbers.now i ≢ id) × (slice_index numbers.now i ≢ 0)) masks) }
{
    let bound = nonzero(alloc, numbers)?;
    let others = unequal(alloc, numbers, id)?;
    let holds = equal(alloc, numbers, id)?;
    let fails = both(others, bound.as_slice());
    Ok(Masks { holds, fails })
}

/// Whether a variable that is bound has a term that is in no row.
pub fn is_missing(alloc: Global, numbers: &[u32]) -> Result<Masks, AllocError>
    ensures { IfOk result (λ masks. AreSplit (length numbers.now) (λ _. ⊥) (λ i. slice_index numbers.now i ≢ 0) masks) }
{
    let holds = filled(alloc, numbers.len(), false)?;
    let fails = nonzero(alloc, numbers)?;
    Ok(Masks { holds, fails })
}

/// Whether two variables that are bound have one number.
pub fn is_same(alloc: Global, a: &[u32], b: &[u32]) -> Result<Masks, AllocError>
    requires { length b.now ≡ length a.now }
    ensures { IfOk result (λ masks. AreSplit (length a.now) (λ i. (slice_index a.now i ≡ slice_index b.now i) × ((slice_index a.now i ≢ 0) × (slice_index b.now i ≢ 0))) (λ i. (slice_index a.now i ≢ slice_index b.now i) × ((slice_index a.now i ≢ 0) × (slice_index b.now i ≢ 0))) masks) }
{
    let bound = both_bound(alloc, a, b)?;
    let same = alike(alloc, a, b)?;
    let others = differing(alloc, a, b)?;
    let holds = both(same, bound.as_slice());
    let fails = both(others, bound.as_slice());
    Ok(Masks { holds, fails })
}
