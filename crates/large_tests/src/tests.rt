ghost use Rattle.std.specs.Prelude.{◌≤◌};

use bench_dm::make_database;
use command_trials::{Fault, add_file, files_of, has_files, output_of, run_on, shelf_of};
use outside_dm::FileList;
use schema_dm::ShapeTable;
use std::alloc::{AllocError, Global};
use table_csv::{Database, table_text};
use value_dm::TryCopy;

// The statements of the generator's database, and the two queries of `bench`.
const FILES: &str = "
+ d/schema.sql
CREATE TABLE Dept (id INTEGER PRIMARY KEY, name TEXT);
CREATE TABLE Person (id INTEGER PRIMARY KEY, name TEXT, dept INTEGER REFERENCES Dept(id), boss INTEGER REFERENCES Person(id));
CREATE TABLE Member (person INTEGER REFERENCES Person(id), dept INTEGER REFERENCES Dept(id), PRIMARY KEY (person, dept));
CREATE TABLE Note (text TEXT, size INTEGER);
+ notes
(diff (project (table Note) text size) (ne (table Note) size integer \"1\"))
+ members
(join (rename (table Person) id person) (table Member))";

// The files of its tables, with their places.
const TABLES: [(u32, &str); 4] = [
    (0, "d/Dept.csv"),
    (1, "d/Person.csv"),
    (2, "d/Member.csv"),
    (3, "d/Note.csv"),
];

// The canonical text of the table at this place, counted from 0, and no text where there is none.
fn text_at(alloc: Global, database: &Database, place: u32) -> Result<Vec<u8>, AllocError> {
    let tables = database.schema().tables();
    let at = place as usize;
    if at >= tables.len() {
        return Ok(Vec::new(alloc));
    }
    let table = &tables[at];
    let shape = ShapeTable {
        name: table.name.copy(alloc)?,
        columns: table.columns.copy(alloc)?,
    };
    table_text(alloc, &shape, database.rows_of(place))
}

// The folder of the generator's database of so many persons, with the queries.
fn folder(alloc: Global, persons: u32) -> Option<FileList>
    requires { persons ≤ 50000 }
{
    let database = make_database(alloc, persons).ok()?;
    let mut files = files_of(alloc, FILES)?;
    for (place, name) in TABLES {
        let text = text_at(alloc, &database, place).ok()?;
        add_file(alloc, &mut files, name, text)?;
    }
    Some(files)
}

// The tables of the generator's database of 20 persons.
const SMALL: &str = "
@ d/Dept.csv
id,name
1,d1
2,d2
3,d3
@ d/Person.csv
id,name,dept,boss
1,p1,2,\\N
10,p10,\\N,5
11,p11,3,5
12,p12,1,6
13,p13,2,6
14,\\N,3,7
15,p15,\\N,7
16,p16,2,8
17,p17,3,8
18,p18,1,9
19,p19,2,9
2,p2,3,1
20,p20,\\N,10
3,p3,1,1
4,p4,2,2
5,p5,\\N,2
6,p6,1,3
7,\\N,2,3
8,p8,3,4
9,p9,1,4
@ d/Member.csv
person,dept
1,1
10,1
11,1
12,1
13,1
14,1
15,1
16,1
17,1
18,1
19,1
2,1
20,1
3,1
4,1
5,1
6,1
7,1
8,1
9,1
@ d/Note.csv
text,size
n0,1
n0,2
n1,1
n1,2
n2,2
n2,\\N
n3,1
n3,\\N
n4,1
n4,2
n5,2
n5,\\N
n6,1
n6,\\N
n7,1
n7,2
n8,2
n8,\\N
n9,1
n9,\\N";

fn is_small(alloc: Global) -> Option<bool> {
    let shelf = shelf_of(alloc, folder(alloc, 20)?, Fault::Nowhere)?;
    has_files(alloc, &shelf, SMALL)
}

#[test]
fn a_small_database(rt: HostRuntime) {
    let found = is_small(rt.alloc()).unwrap_or(false);
    assert!(rt; found);
}

fn lines(bytes: &[u8]) -> usize {
    bytes.iter().filter(|byte| **byte == b'\n').count()
}

// The folder with its map graph, which has as many lines as the graph has triples.
fn folder_with_graph(alloc: Global) -> Option<FileList> {
    let mut files = folder(alloc, 20_000)?;
    let line = "map http://example.com/ d";
    let graph = output_of(alloc, line, files.copy(alloc).ok()?)?;
    if lines(graph.as_slice()) != 208_514 {
        return None;
    }
    add_file(alloc, &mut files, "g", graph)?;
    Some(files)
}

// Whether `invert` of the graph ends well, stores the departments' file as it was, and each membership.
fn is_inverted(alloc: Global, files: &FileList) -> Option<bool> {
    let mut shelf = shelf_of(alloc, files.copy(alloc).ok()?, Fault::Nowhere)?;
    let line = "invert http://example.com/ g o";
    let ended = run_on(alloc, line, &mut shelf, Fault::Nowhere)?;
    let departments = shelf.content("o/Dept.csv")? == shelf.content("d/Dept.csv")?;
    let members = lines(shelf.content("o/Member.csv")?);
    Some((ended.number == 0) & departments & (members == 20_001))
}

// Whether `rows` and `ask` write the same for a query, in so many lines.
fn is_asked(alloc: Global, files: &FileList, query: &str, wanted: usize) -> Option<bool> {
    let line = format!(in alloc; "rows d {query}").ok()?;
    let rows = output_of(alloc, line.as_str(), files.copy(alloc).ok()?)?;
    let line = format!(in alloc; "ask map http://example.com/ d g {query}").ok()?;
    let asked = output_of(alloc, line.as_str(), files.copy(alloc).ok()?)?;
    Some((rows == asked) & (lines(rows.as_slice()) == wanted))
}

fn comes_back(alloc: Global) -> Option<bool> {
    let files = folder_with_graph(alloc)?;
    let inverted = is_inverted(alloc, &files)?;
    let notes = is_asked(alloc, &files, "notes", 21)?;
    let members = is_asked(alloc, &files, "members", 9)?;
    Some(inverted & notes & members)
}

#[test]
fn a_large_database(rt: HostRuntime) {
    let found = comes_back(rt.alloc()).unwrap_or(false);
    assert!(rt; found);
}
