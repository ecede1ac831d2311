// Sums of what each kernel gives over small inputs.
use crate::times::{escapes, refused};
use lanes_dm::{
    ByteClass, and_into, count_byte, first_of, has_zero, mask_eq, mask_ne, mask_nonzero, mask_same,
};
use std::io;

const SIZE: usize = 1000;

// The first places after each start, added up. A start after the last hit adds the size.
fn sum_of_places(bytes: &[u8; SIZE], class: &ByteClass) -> u64 {
    let mut sum = 0u64;
    for start in 0..SIZE {
        let place = first_of(&bytes[start..], class).unwrap_or(SIZE);
        sum = sum.wrapping_add(place as u64);
    }
    sum
}

// The rows of a mask that are set, added up, and 1,000,000 for each of its flags.
fn sum_of_rows(mask: &[u8; SIZE]) -> u64 {
    let mut sum = 0u64;
    for row in 0..SIZE {
        sum = sum.wrapping_add(u64::from(mask[row]).wrapping_mul(1_000_000 + row as u64));
    }
    sum
}

pub fn print_sums<R: Print>(rt: &R) -> io::Result<()> {
    let mut bytes = [0u8; SIZE];
    let mut column = [0u32; SIZE];
    let mut other = [0u32; SIZE];
    for i in 0..SIZE {
        bytes[i] = (i * i % 251) as u8;
        column[i] = (i % 7) as u32;
        other[i] = (i % 5) as u32;
    }
    println!(rt; "first_of, 4 bytes: {}", sum_of_places(&bytes, &escapes()))?;
    println!(rt; "first_of, 42 bytes: {}", sum_of_places(&bytes, &refused()))?;
    println!(rt; "count_byte: {}", count_byte(&bytes, 4))?;
    let mut mask = [0u8; SIZE];
    mask_eq(&column, 3, &mut mask);
    println!(rt; "mask_eq: {}", sum_of_rows(&mask))?;
    let mut joined = [0u8; SIZE];
    mask_ne(&other, 3, &mut joined);
    println!(rt; "mask_ne: {}", sum_of_rows(&joined))?;
    and_into(&mut joined, &mask);
    println!(rt; "and_into: {}", sum_of_rows(&joined))?;
    mask_nonzero(&column, &mut mask);
    println!(rt; "mask_nonzero: {}", sum_of_rows(&mask))?;
    mask_same(&column, &other, &mut mask);
    println!(rt; "mask_same: {}", sum_of_rows(&mask))?;
    println!(rt;
        "has_zero: {} {}",
        has_zero(&column),
        has_zero(&column[1..7])
    )
}
