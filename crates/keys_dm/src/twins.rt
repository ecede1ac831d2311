ghost use Rattle.std.specs.Prelude.{◌≡◌, ◌<◌, ◌↔◌, length, IfOk, IsTrue};
ghost use Rattle.keys_dm.specs.Entries.{IsSortedIndexOf, key_of};
ghost use Rattle.keys_dm.specs.Hashes.{hash_of};
ghost use Rattle.keys_dm.specs.Twins.{FlagsPair, TellTwins};

use crate::index::Entry;
use crate::order::{compare_at, row_of};
use std::alloc::{AllocError, Global};
use table_csv::Rows;

fn is_same_key(rows: &Rows, places: &[u32], before: Entry, here: Entry) -> bool
    requires before { before.hash ≡ hash_of (key_of rows.now places.now before) }
    requires here { here.hash ≡ hash_of (key_of rows.now places.now here) }
    ensures { IsTrue result ↔ (key_of rows.now places.now before ≡ key_of rows.now places.now here) }
{
    before.hash == here.hash
        && compare_at(
            row_of(rows, before.row),
            places,
            row_of(rows, here.row),
            places,
        )
        .is_eq()
}

// Flags both rows where they have the same cells in the columns of the key.
fn flag_pair(rows: &Rows, places: &[u32], before: Entry, here: Entry, flags: &mut Vec<bool>)
    requires before { before.hash ≡ hash_of (key_of rows.now places.now before) }
    requires here { here.hash ≡ hash_of (key_of rows.now places.now here) }
    requires low { before.row < length flags.now.items }
    requires high { here.row < length flags.now.items }
    ensures { FlagsPair rows.now places.now before here flags.old.items flags.new.items }
{
    if is_same_key(rows, places, before, here) {
        flags[before.row as usize] = true;
        flags[here.row as usize] = true;
    }
}

/// For each row whether another has the same cells in the columns of the key, by the entries of all
/// rows in their order.
pub fn twins_of(
    alloc: Global,
    rows: &Rows,
    places: &[u32],
    entries: &[Entry],
) -> Result<Vec<bool>, AllocError>
    requires { IsSortedIndexOf rows.now places.now entries.now }
    ensures { IfOk result (λ flags. TellTwins rows.now places.now flags.items) }
{
    let mut flags = vec![in alloc; false; rows.len()]?;
    for place in 1..entries.len() {
        let before = entries[place - 1];
        let here = entries[place];
        flag_pair(rows, places, before, here, &mut flags);
    }
    Ok(flags)
}
