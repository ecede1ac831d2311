// Tests of whole columns, 16 rows at a time.
ghost use Rattle.std.specs.Prelude.{◌≡◌, ◌↔◌, ◌+◌, ◌≤◌, ◌==◌, ◌||◌, not, length, map, Contains, IsTrue, if◌then◌else◌};
ghost use Rattle.std.specs.Simd.Lanes.{chunk, put_chunk, zip2};
ghost use Rattle.lanes_dm.specs.Flags.{flag};

use std::simd::prelude::*;

// How many numbers, and how many flags, a step takes.
const NUMBERS: usize = 16;

const FLAGS: usize = 32;

// The choices of the 16 numbers from `at`.
#[inline(always)]
fn put_choice(column: &[u32], id: u32, equal: u8, other: u8, out: &mut [u8], at: usize)
    requires column { at + 16 ≤ length column.now }
    requires out { at + 16 ≤ length out.old }
    ensures { out.new ≡ put_chunk at out.old (map (λ x. if x == id then equal else other) (chunk at 16 column.now)) }
{
    let v = u32x16::from_slice(&column[at..]);
    let hits = v.simd_eq(u32x16::splat(id));
    let bytes = hits.select(
        u32x16::splat(u32::from(equal)),
        u32x16::splat(u32::from(other)),
    );
    bytes.cast::<u8>().copy_to_slice(&mut out[at..]);
}

// Writes one byte where the column has this number, and another elsewhere.
fn choose(column: &[u32], id: u32, equal: u8, other: u8, out: &mut [u8])
    requires { length out.old ≡ length column.now }
    ensures { out.new ≡ map (λ x. if x == id then equal else other) column.now }
{
    let mut at = 0;
    'wide: while column.len() - at >= NUMBERS {
        put_choice(column, id, equal, other, out, at);
        at += NUMBERS;
    }
    'rest: while at < column.len() {
        out[at] = if column[at] == id { equal } else { other };
        at += 1;
    }
}

/// Writes 1 at each row where the column has this number, and else 0. `out` is as long as the column.
pub fn mask_eq(column: &[u32], id: u32, out: &mut [u8])
    requires { length out.old ≡ length column.now }
    ensures { out.new ≡ map (λ x. flag (x == id)) column.now }
{
    choose(column, id, 1, 0, out)
}

/// Writes 1 at each row where the column has another number, and else 0. `out` is as long as the column.
pub fn mask_ne(column: &[u32], id: u32, out: &mut [u8])
    requires { length out.old ≡ length column.now }
    ensures { out.new ≡ map (λ x. flag (not (x == id))) column.now }
{
    choose(column, id, 0, 1, out)
}

/// Writes 1 at each row where the column is not 0, and else 0. `out` is as long as the column.
pub fn mask_nonzero(column: &[u32], out: &mut [u8])
    requires { length out.old ≡ length column.now }
    ensures { out.new ≡ map (λ x. flag (not (x == 0))) column.now }
{
    mask_ne(column, 0, out)
}

// The flags of the 16 pairs from `at`.
#[inline(always)]
fn put_same(a: &[u32], b: &[u32], out: &mut [u8], at: usize)
    requires a { at + 16 ≤ length a.now }
    requires b { at + 16 ≤ length b.now }
    requires out { at + 16 ≤ length out.old }
    ensures { out.new ≡ put_chunk at out.old (zip2 (λ x y. flag (x == y)) (chunk at 16 a.now) (chunk at 16 b.now)) }
{
    let v = u32x16::from_slice(&a[at..]);
    let w = u32x16::from_slice(&b[at..]);
    let flags = v.simd_eq(w).select(u32x16::splat(1), u32x16::splat(0));
    flags.cast::<u8>().copy_to_slice(&mut out[at..]);
}

// 1 where both are the same, and else 0.
fn same(x: u32, y: u32) -> u8
    ensures { result ≡ flag (x == y) }
{
    u8::from(x == y)
}

/// Writes 1 at each row where both columns have the same number, and else 0. All three have one length.
pub fn mask_same(a: &[u32], b: &[u32], out: &mut [u8])
    requires columns { length b.now ≡ length a.now }
    requires out { length out.old ≡ length a.now }
    ensures { out.new ≡ zip2 (λ x y. flag (x == y)) a.now b.now }
{
    let mut at = 0;
    'wide: while a.len() - at >= NUMBERS {
        put_same(a, b, out, at);
        at += NUMBERS;
    }
    'rest: while at < a.len() {
        out[at] = same(a[at], b[at]);
        at += 1;
    }
}

// Whether one of the 16 numbers from `at` is 0.
#[inline(always)]
fn some_zero(column: &[u32], at: usize) -> bool
    requires { at + 16 ≤ length column.now }
    ensures { IsTrue result ↔ Contains (chunk at 16 column.now) 0 }
{
    u32x16::from_slice(&column[at..])
        .simd_eq(u32x16::splat(0))
        .any()
}

// Whether there is a 0, number by number.
fn zero_plain(column: &[u32]) -> bool
    ensures { IsTrue result ↔ Contains column.now 0 }
{
    column.contains(&0)
}

/// Whether a row of the column is 0. A column of no rows has none.
pub fn has_zero(column: &[u32]) -> bool
    ensures { IsTrue result ↔ Contains column.now 0 }
{
    let mut at = 0;
    'wide: while column.len() - at >= NUMBERS {
        if some_zero(column, at) {
            return true;
        }
        at += NUMBERS;
    }
    zero_plain(&column[at..])
}

// The flags of the 32 pairs from `at`.
#[inline(always)]
fn put_both(a: &mut [u8], b: &[u8], at: usize)
    requires a { at + 32 ≤ length a.old }
    requires b { at + 32 ≤ length b.now }
    ensures { a.new ≡ put_chunk at a.old (zip2 (λ x y. flag (not (x == 0 || y == 0))) (chunk at 32 a.old) (chunk at 32 b.now)) }
{
    let least = u8x32::from_slice(&a[at..]).simd_min(u8x32::from_slice(&b[at..]));
    least
        .simd_ne(u8x32::splat(0))
        .select(u8x32::splat(1), u8x32::splat(0))
        .copy_to_slice(&mut a[at..]);
}

// 1 where neither is 0, and else 0.
fn both(x: u8, y: u8) -> u8
    ensures { result ≡ flag (not (x == 0 || y == 0)) }
{
    u8::from(x != 0 && y != 0)
}

/// Writes 1 into `a` at each row where neither mask is 0, and else 0. Both have one length.
pub fn and_into(a: &mut [u8], b: &[u8])
    requires { length b.now ≡ length a.old }
    ensures { a.new ≡ zip2 (λ x y. flag (not (x == 0 || y == 0))) a.old b.now }
{
    let mut at = 0;
    'wide: while b.len() - at >= FLAGS {
        put_both(a, b, at);
        at += FLAGS;
    }
    'rest: while at < b.len() {
        a[at] = both(a[at], b[at]);
        at += 1;
    }
}
