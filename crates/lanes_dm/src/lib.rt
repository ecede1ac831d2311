//! Kernels over bytes and over columns of numbers, by lanes: each is equal to its plain definition at every length.
#![tactic(auto)]

mod bytes;
mod columns;

pub use bytes::{ByteClass, count_byte, first_of};
pub use columns::{and_into, has_zero, mask_eq, mask_ne, mask_nonzero, mask_same};
