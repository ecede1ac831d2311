use command_trials::{
    Ended, Fault, add_file, bytes_of, files_of, has_files, run_on, run_over, shelf_of,
};
use outside_dm::FileList;
use std::alloc::Global;

// A folder, and a folder with a schema alone. In the graphs `<~` stands for `<http://foo.example/DB/`, and prefixes for their namespaces.
const FOLDER: &str = "
+ d/schema.sql
CREATE TABLE Addresses (ID INT PRIMARY KEY, city CHAR(10), state CHAR(2)); CREATE TABLE People (ID INT PRIMARY KEY, fname CHAR(10), addr INT, FOREIGN KEY (addr) REFERENCES Addresses(ID));
+ d/Addresses.csv
ID,city,state
18,Cambridge,MA
+ d/People.csv
ID,fname,addr
7,Bob,18
8,Sue,\\N
+ e/schema.sql
CREATE TABLE T (a INT);";

// The ontology of the folder's map graph.
const ONTOLOGY: &str = "<~Addresses> <rdf:type> <owl:Class> .
<~Addresses#ID> <rdf:type> <owl:DatatypeProperty> .
<~Addresses#ID> <rdfs:domain> <~Addresses> .
<~Addresses#ID> <rdfs:range> <xsd:integer> .
<~Addresses#city> <rdf:type> <owl:DatatypeProperty> .
<~Addresses#city> <rdfs:domain> <~Addresses> .
<~Addresses#city> <rdfs:range> <xsd:string> .
<~Addresses#state> <rdf:type> <owl:DatatypeProperty> .
<~Addresses#state> <rdfs:domain> <~Addresses> .
<~Addresses#state> <rdfs:range> <xsd:string> .
<~People> <rdf:type> <owl:Class> .
<~People#ID> <rdf:type> <owl:DatatypeProperty> .
<~People#ID> <rdfs:domain> <~People> .
<~People#ID> <rdfs:range> <xsd:integer> .
<~People#fname> <rdf:type> <owl:DatatypeProperty> .
<~People#fname> <rdfs:domain> <~People> .
<~People#fname> <rdfs:range> <xsd:string> .
<~People#addr> <rdf:type> <owl:DatatypeProperty> .
<~People#addr> <rdfs:domain> <~People> .
<~People#addr> <rdfs:range> <xsd:integer> .
<~People#ref-addr> <rdf:type> <owl:ObjectProperty> .
<~People#ref-addr> <rdfs:domain> <~People> .
<~People#ref-addr> <rdfs:range> <~Addresses> .
";

// Its direct graph.
const DIRECT: &str = "<~Addresses/ID=18> <rdf:type> <~Addresses> .
<~Addresses/ID=18> <~Addresses#ID> \"18\"^^<xsd:integer> .
<~Addresses/ID=18> <~Addresses#city> \"Cambridge\" .
<~Addresses/ID=18> <~Addresses#state> \"MA\" .
<~People/ID=7> <rdf:type> <~People> .
<~People/ID=7> <~People#ID> \"7\"^^<xsd:integer> .
<~People/ID=7> <~People#fname> \"Bob\" .
<~People/ID=7> <~People#addr> \"18\"^^<xsd:integer> .
<~People/ID=7> <~People#ref-addr> <~Addresses/ID=18> .
<~People/ID=8> <rdf:type> <~People> .
<~People/ID=8> <~People#ID> \"8\"^^<xsd:integer> .
<~People/ID=8> <~People#fname> \"Sue\" .
";

fn direct(alloc: Global, put: u64) -> Option<Ended> {
    let line = "direct http://foo.example/DB/ d";
    run_over(alloc, line, files_of(alloc, FOLDER)?, Fault::Put(put))
}

// Whether a run of which a put failed ended with a prefix of the text.
fn has_prefix(ended: &Ended, whole: &[u8]) -> bool {
    ended.number == 5
        && whole.starts_with(ended.output.as_slice())
        && ended.line.as_slice() == b"dbrdf: write fault\n".as_slice()
}

// Whether each run ends so of which the put with the next number fails, until one ends well with the whole text.
fn fails_at_each_put(alloc: Global, whole: &[u8]) -> bool {
    for put in 1..10_000 {
        let Some(ended) = direct(alloc, put) else {
            return false;
        };
        if ended.number == 0 {
            return put > 1 && ended.output.as_slice() == whole;
        }
        if !has_prefix(&ended, whole) {
            return false;
        }
    }
    false
}

fn is_direct_cut_off(alloc: Global) -> Option<bool> {
    let whole = bytes_of(alloc, DIRECT)?;
    Some(fails_at_each_put(alloc, whole.as_slice()))
}

#[test]
fn an_output_that_fails(rt: HostRuntime) {
    let found = is_direct_cut_off(rt.alloc()).unwrap_or(false);
    assert!(rt; found);
}

// None of the files that `invert` stores of the map graph.
const NOTHING: &str = "
@ o/schema.sql
-
@ o/Addresses.csv
-
@ o/People.csv
-";

// Whether the line names one of the causes that a graph that is cut off may be refused for.
fn is_cause_of_a_cut(line: &[u8]) -> bool {
    line.starts_with(b"dbrdf: refused 28 BadLine ")
        || line.starts_with(b"dbrdf: refused 30 Unexplained ")
        || line.starts_with(b"dbrdf: refused 44 NoTables")
}

// The graph file `g` of these bytes.
fn graph_file(alloc: Global, front: &[u8]) -> Option<FileList> {
    let mut files = FileList::new(alloc);
    add_file(alloc, &mut files, "g", Vec::from_slice(alloc, front).ok()?)?;
    Some(files)
}

// Whether `invert` stores tables of these first bytes of a graph, or refuses them and stores nothing.
fn is_cut_judged(alloc: Global, front: &[u8]) -> Option<bool> {
    let mut shelf = shelf_of(alloc, graph_file(alloc, front)?, Fault::Nowhere)?;
    let line = "invert http://foo.example/DB/ g o";
    let ended = run_on(alloc, line, &mut shelf, Fault::Nowhere)?;
    match ended.number {
        0 => Some(true),
        1 if is_cause_of_a_cut(ended.line.as_slice()) => has_files(alloc, &shelf, NOTHING),
        _ => Some(false),
    }
}

// The first place at which the graph, cut off there, is judged otherwise, or its length where there is no such place.
fn first_misjudged(alloc: Global, graph: &[u8]) -> usize {
    for place in 0..graph.len() {
        if !is_cut_judged(alloc, &graph[..place]).unwrap_or(false) {
            return place;
        }
    }
    graph.len()
}

fn are_cuts_judged(alloc: Global) -> Option<bool> {
    let mut graph = bytes_of(alloc, ONTOLOGY)?;
    let rows = bytes_of(alloc, DIRECT)?;
    graph.extend_from_slice(rows.as_slice()).ok()?;
    Some(first_misjudged(alloc, graph.as_slice()) == graph.len())
}

#[test]
fn graphs_that_are_cut_off(rt: HostRuntime) {
    let found = are_cuts_judged(rt.alloc()).unwrap_or(false);
    assert!(rt; found);
}

// How `check` of the folder ends where its file of this name has one byte more than a load takes.
fn too_long(alloc: Global, folder: &str, name: &str) -> Option<Ended> {
    let long = vec![in alloc; b' '; 268_435_457].ok()?;
    let mut files = files_of(alloc, folder)?;
    add_file(alloc, &mut files, name, long)?;
    run_over(alloc, "check e", files, Fault::Nowhere)
}

fn is_too_long(alloc: Global, folder: &str, name: &str, line: &str) -> bool {
    match too_long(alloc, folder, name) {
        Some(ended) => (ended.number == 7) & (ended.line.as_slice() == line.as_bytes()),
        None => false,
    }
}

#[test]
fn files_that_are_too_long(rt: HostRuntime) {
    let schema = "dbrdf: too long schema\n";
    let found = is_too_long(rt.alloc(), "", "e/schema.sql", schema);
    assert!(rt; found);
    let table = "dbrdf: too long table 1\n";
    let found = is_too_long(rt.alloc(), FOLDER, "e/T.csv", table);
    assert!(rt; found);
}

// Many ranges of one property, and many triples of it.
fn crowd(alloc: Global) -> Option<FileList> {
    let mut text = String::new(alloc);
    for number in 0..60_000 {
        let lines = format!(in alloc;
            "<p> <http://www.w3.org/2000/01/rdf-schema#range> <c{number}> .\n<s{number}> <p> <o> .\n"
        );
        text.push_str(lines.ok()?.as_str()).ok()?;
    }
    let mut files = FileList::new(alloc);
    add_file(
        alloc,
        &mut files,
        "g",
        Vec::from_slice(alloc, text.as_bytes()).ok()?,
    )?;
    Some(files)
}

fn is_crowd_consistent(alloc: Global) -> Option<bool> {
    let ended = run_over(alloc, "consistent g", crowd(alloc)?, Fault::Nowhere)?;
    Some((ended.number == 0) & (ended.output.as_slice() == b"consistent\n".as_slice()))
}

#[test]
fn many_ranges_of_one_property(rt: HostRuntime) {
    let found = is_crowd_consistent(rt.alloc()).unwrap_or(false);
    assert!(rt; found);
}
