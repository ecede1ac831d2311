use std::alloc::{AllocError, Global};
use value_dm::{Sequence, TryCopy};

/// The places of two rows, from 0.
#[derive(Clone, Copy, Debug, PartialEq, Eq)]
pub struct RowPair {
    pub left: u64,
    pub right: u64,
}

impl TryCopy for RowPair {
    fn copy(&self, _alloc: Global) -> Result<RowPair, AllocError> {
        Ok(*self)
    }
}

/// Pairs of rows in order.
pub type PairList = Sequence<RowPair>;
