// Searches in a text of bytes, 32 at a time.
ghost use Rattle.std.specs.Prelude.{◌≡◌, ℕ, IsTrue, ◌+◌, ◌/◌, ◌%◌, ◌^◌, ◌≤◌, ◌==◌, ◌||◌, false, true, length, map, count_by, position, slice_index};
ghost use Rattle.std.specs.Simd.Lanes.{Each1, chunk, mask_l};
ghost use Rattle.lanes_dm.specs.ByteSet.{has_byte};
ghost use Rattle.lanes_dm.specs.Tables.{byte_at, is_place};

use std::marker::Model;
use std::simd::prelude::*;

const LANES: usize = 32;

// The byte with bit k % 8 set, for k from 0 to 15.
const BITS: [u8; 16] = [1, 2, 4, 8, 16, 32, 64, 128, 1, 2, 4, 8, 16, 32, 64, 128];

// The places 0 to 15 twice, which put one table under both halves of a vector.
const TWICE: [usize; 32] = [
    0, 1, 2, 3, 4, 5, 6, 7, 8, 9, 10, 11, 12, 13, 14, 15, 0, 1, 2, 3, 4, 5, 6, 7, 8, 9, 10, 11, 12,
    13, 14, 15,
];

/// A set of bytes.
#[derive(Drop)]
pub struct ByteClass {
    // Byte b is bit b % 8 of row b / 8.
    rows: [u8; 32],
}

impl Model for ByteClass {
    ghost use Rattle.std.specs.Prelude.{Bool, List};
    ghost use Rattle.lanes_dm.specs.ByteSet.{tests_of};

    ghost Value = { List Bool };

    ghost view = { λ c. tests_of c.rows };
}

impl ByteClass {
    /// The set of no byte.
    pub fn new() -> ByteClass
        ensures { (x : ℕ) → has_byte result x ≡ false }
    {
        ByteClass { rows: [0; 32] }
    }

    /// The set with one more byte.
    pub fn with(self, b: u8) -> ByteClass
        ensures { (x : ℕ) → has_byte result x ≡ (has_byte self x || (x == b)) }
    {
        let mut rows = self.rows;
        rows[(b / 8) as usize] |= 1 << (b % 8);
        ByteClass { rows }
    }

    /// Whether the byte is in the set.
    pub fn has(&self, b: u8) -> bool
        ensures { result ≡ has_byte self.now b }
    {
        (self.rows[(b / 8) as usize] >> (b % 8)) & 1 == 1
    }

    // Bit k is set where the byte k places after `at` is in the set.
    #[inline(always)]
    fn marks(&self, bytes: &[u8], at: usize) -> u64
        requires { at + 32 ≤ length bytes.now }
        ensures { result ≡ mask_l (map (has_byte self.now) (chunk at 32 bytes.now)) }
    {
        let v = u8x32::from_slice(&bytes[at..]);
        (rows_of(v, &self.rows) & bits_of(v))
            .simd_ne(u8x32::splat(0))
            .to_bitmask()
    }
}

// The byte of a table at each place.
#[inline(always)]
fn look_up(table: u8x16, places: u8x32) -> u8x32
    requires { Each1 (λ j. IsTrue (is_place j)) places }
    ensures { result ≡ map (byte_at table) places }
{
    table.swizzle(TWICE).swizzle_dyn_within::<16>(places)
}

// Of each byte the row that has its bit: below 128 in the first table, where the other gives 0, and else in the second.
#[inline(always)]
fn rows_of(v: u8x32, rows: &[u8; 32]) -> u8x32
    ensures { result ≡ map (λ x. slice_index rows.now (x / 8)) v }
{
    let place = v >> u8x32::splat(3);
    let first = look_up(u8x16::from_slice(rows), place | (v & u8x32::splat(128)));
    let second = look_up(u8x16::from_slice(&rows[16..]), place - u8x32::splat(16));
    first | second
}

// Of each byte the bit that stands for it in its row.
#[inline(always)]
fn bits_of(v: u8x32) -> u8x32
    ensures { result ≡ map (λ x. 2 ^ (x % 8)) v }
{
    look_up(u8x16::from_array(BITS), v & u8x32::splat(7))
}

// The first place, byte by byte.
fn first_plain(bytes: &[u8], class: &ByteClass) -> Option<usize>
    ensures { result ≡ position (has_byte class.now) bytes.now }
{
    bytes.iter().position(|b| class.has(*b))
}

/// The first place, counted from 0, whose byte is in the class. None exactly where there is no such byte.
pub fn first_of(bytes: &[u8], class: &ByteClass) -> Option<usize>
    ensures { result ≡ position (has_byte class.now) bytes.now }
{
    let mut at = 0;
    'wide: while bytes.len() - at >= LANES {
        let marks = class.marks(bytes, at);
        if marks != 0 {
            return Some(at + marks.trailing_zeros() as usize);
        }
        at += LANES;
    }
    let after = first_plain(&bytes[at..], class)?;
    Some(at + after)
}

// How many of the 32 bytes from `at` are this byte.
#[inline(always)]
fn hits(bytes: &[u8], at: usize, b: u8) -> usize
    requires { at + 32 ≤ length bytes.now }
    ensures { result ≡ count_by (λ x. x == b) (chunk at 32 bytes.now) }
{
    let v = u8x32::from_slice(&bytes[at..]);
    v.simd_eq(u8x32::splat(b)).to_bitmask().count_ones() as usize
}

// How many, byte by byte.
fn count_plain(bytes: &[u8], b: u8) -> usize
    ensures { result ≡ count_by (λ x. x == b) bytes.now }
{
    bytes.iter().filter(|x| **x == b).count()
}

/// How many of the bytes are this byte.
pub fn count_byte(bytes: &[u8], b: u8) -> usize
    ensures { result ≡ count_by (λ x. x == b) bytes.now }
{
    let mut total = 0;
    let mut at = 0;
    'wide: while bytes.len() - at >= LANES {
        total += hits(bytes, at, b);
        at += LANES;
    }
    total + count_plain(&bytes[at..], b)
}
