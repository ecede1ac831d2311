use crate::bases::{database, holds, joined, lists, schema};
use algebra_dm::{Mode, Query, certain, check_query};
use keys_dm::{ViolationList, violations};
use schema_dm::Schema;
use std::alloc::Global;
use table_csv::{Database, RowsList};
use value_dm::{Text, TryCopy};

const TABLES: &str =
    "CREATE TABLE A (n INTEGER UNIQUE, m INT PRIMARY KEY, a INT REFERENCES A (m), b TEXT NOT NULL);";

const FILE: &str = "n,m,a,b\n1,1,7,x\n1,1,,y\n,2,2,z\n";

// The columns with which a file is read, the file, the columns of a schema's table, and whether the rows fit it.
const FITS: [(&str, &str, &str, bool); 9] = [
    ("a TEXT, n INTEGER", "a,n\nx,1\n", "a TEXT, n INTEGER", true),
    (
        "a TEXT, n INTEGER",
        "a,n\nx,1\n",
        "a TEXT, n INTEGER NOT NULL",
        true,
    ),
    ("a TEXT, n INTEGER", "a,n\nx,\n", "a TEXT, n DATE", true),
    ("a TEXT, n INTEGER", "a,n\n", "a TEXT", true),
    (
        "a TEXT, n INTEGER",
        "a,n\nx,1\ny,\n",
        "a TEXT, n INTEGER NOT NULL",
        false,
    ),
    ("a TEXT, n INTEGER", "a,n\nx,1\n", "a TEXT", false),
    (
        "a TEXT, n INTEGER",
        "a,n\nx,1\n",
        "a TEXT, n INTEGER, b TEXT",
        false,
    ),
    (
        "a TEXT, n INTEGER",
        "a,n\nx,1\n",
        "a TEXT, n DECIMAL",
        false,
    ),
    (
        "a TEXT",
        "a\nx\n",
        "a TEXT); CREATE TABLE AA (b TEXT",
        false,
    ),
];

fn table(alloc: Global, columns: &str) -> Option<Schema> {
    let statement = format!(in alloc; "CREATE TABLE A ({columns});").ok()?;
    schema(alloc, statement.as_str())
}

// A copy of the rows of a file.
fn rows(alloc: Global, columns: &str, file: &str) -> Option<RowsList> {
    let rows = lists(alloc, &table(alloc, columns)?, file)?;
    rows.copy(alloc).ok()
}

fn fits(alloc: Global, columns: &str, file: &str, others: &str) -> Option<bool> {
    let rows = rows(alloc, columns, file)?;
    Some(joined(table(alloc, others)?, rows).is_some())
}

fn wrong_fit(alloc: Global) -> usize {
    for (place, (columns, file, others, expected)) in FITS.iter().enumerate() {
        if fits(alloc, columns, file, others) != Some(*expected) {
            return place;
        }
    }
    FITS.len()
}

#[test]
fn rows_that_fit(rt: HostRuntime) {
    let wrong = wrong_fit(rt.alloc());
    assert!(rt; wrong == FITS.len(), "{wrong}");
}

fn listed(alloc: Global, database: &Database) -> Option<ViolationList> {
    violations(alloc, database).ok()
}

// Whether the list of violations is as long, and that of its copy.
fn are_listed(alloc: Global, database: &Database, count: usize) -> Option<bool> {
    let found = listed(alloc, database)?;
    Some((found.copy(alloc).ok()? == found) & (found.as_slice().len() == count))
}

// Whether the copy of a database has its violations.
fn are_copied(alloc: Global) -> Option<bool> {
    let copy = database(alloc, TABLES, FILE)?.copy(alloc).ok()?;
    Some(are_listed(alloc, &copy, 5)? & !holds(alloc, &copy))
}

fn is_kept(alloc: Global) -> bool {
    match database(alloc, TABLES, "n,m,a,b\n1,1,1,x\n") {
        Some(database) => holds(alloc, &database),
        None => false,
    }
}

#[test]
fn copies(rt: HostRuntime) {
    let copied = are_copied(rt.alloc()).unwrap_or(false);
    assert!(rt; copied);
    let kept = is_kept(rt.alloc());
    assert!(rt; kept);
}

// A query of the table and its copy. (In a vector a query is dropped as a part.)
fn queries(alloc: Global) -> Option<Vec<Query>> {
    let mut queries = Vec::new(alloc);
    queries
        .push(Query::Table(Text::from_str(alloc, "A").ok()?))
        .ok()?;
    let copy = queries.last()?.copy(alloc).ok()?;
    queries.push(copy).ok()?;
    Some(queries)
}

// How many of the attributes are certain in this mode.
fn count(alloc: Global, mode: Mode, schema: &Schema, query: &Query) -> Option<usize> {
    match check_query(alloc, schema, query) {
        Ok(()) => Some(certain(alloc, mode, schema, query).ok()?.len()),
        Err(_) => None,
    }
}

fn are_certain(alloc: Global, mode: Mode, wanted: usize) -> Option<bool> {
    let queries = queries(alloc)?;
    let found = count(alloc, mode, &schema(alloc, TABLES)?, queries.last()?)?;
    Some(found == wanted)
}

#[test]
fn certain_attributes(rt: HostRuntime) {
    let found = are_certain(rt.alloc(), Mode::Map, 2);
    assert!(rt; found == Some(true));
    let found = are_certain(rt.alloc(), Mode::MapKeys, 1);
    assert!(rt; found == Some(true));
}
