use crate::bases::database;
use clean_dm::{Removal, Removals, check_removals};
use keys_dm::ViolationKind;
use std::alloc::Global;
use table_csv::Database;
use value_dm::TryCopy;

// Of a database whose rows 3 and 4 go, row 3 for its key and then row 4 since row 3 is gone: lists of removals by row and kind, and
// whether each is a certificate.
const CERTIFICATES: [(&[(u64, ViolationKind)], bool); 8] = [
    (
        &[
            (3, ViolationKind::Dangling(1)),
            (4, ViolationKind::Dangling(1)),
        ],
        true,
    ),
    (&[(4, ViolationKind::Dangling(1))], false),
    (&[(3, ViolationKind::Dangling(1))], false),
    (
        &[
            (4, ViolationKind::Dangling(1)),
            (3, ViolationKind::Dangling(1)),
        ],
        false,
    ),
    (
        &[
            (3, ViolationKind::Dangling(1)),
            (4, ViolationKind::Dangling(2)),
        ],
        false,
    ),
    (
        &[
            (3, ViolationKind::Dangling(1)),
            (4, ViolationKind::Dangling(1)),
            (4, ViolationKind::Dangling(1)),
        ],
        false,
    ),
    (
        &[
            (3, ViolationKind::Dangling(1)),
            (4, ViolationKind::Dangling(1)),
            (5, ViolationKind::RepeatedKey),
        ],
        false,
    ),
    (
        &[
            (3, ViolationKind::Dangling(1)),
            (4, ViolationKind::Dangling(1)),
            (8, ViolationKind::NullKey),
        ],
        false,
    ),
];

// A copy of the removals of rows of the first table.
fn listed(alloc: Global, list: &[(u64, ViolationKind)]) -> Option<Removals> {
    let mut removals = Removals::new(alloc);
    for &(row, kind) in list {
        let removal = Removal {
            table: 1,
            row,
            kind,
        };
        removals.push(removal).ok()?;
    }
    removals.copy(alloc).ok()
}

fn is_told(alloc: Global, database: &Database, list: &[(u64, ViolationKind)]) -> Option<bool> {
    check_removals(alloc, database, &listed(alloc, list)?).ok()
}

// The place of the first list that is told otherwise, or how many there are.
fn first_wrong(alloc: Global, database: &Database) -> usize {
    for (place, (list, expected)) in CERTIFICATES.iter().enumerate() {
        if is_told(alloc, database, list) != Some(*expected) {
            return place;
        }
    }
    CERTIFICATES.len()
}

fn are_told(alloc: Global) -> Option<bool> {
    let database = database(
        alloc,
        "CREATE TABLE E (id INT, boss INT, PRIMARY KEY (id), FOREIGN KEY (boss) REFERENCES E);",
        "id,boss\n1,\n2,1\n3,9\n4,3\n5,5\n6,7\n7,6",
    )?;
    Some(first_wrong(alloc, &database) == 8)
}

#[test]
fn certificates(rt: HostRuntime) {
    let found = are_told(rt.alloc()).unwrap_or(false);
    assert!(rt; found);
}
