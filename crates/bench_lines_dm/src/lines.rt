ghost use Rattle.std.specs.Prelude.{◌≡◌, ◌≤◌, ◌++◌, IfOk, IsTrue, OnOk, codes, decimal, length, string_bytes};
ghost use Rattle.graphs_dm.specs.Graphs.{AreTriplesOf};
ghost use Rattle.graphs_dm.specs.declared.graph_name.GraphName.TheVariants as graph;
ghost use Rattle.keys_dm.specs.Violations.{KeepsKeys};
ghost use Rattle.bench_dm.specs.Generated.{generated};
ghost use Rattle.bench_lines_dm.specs.Bench.{HasTriples, IsBenchText, base_text, bench_text, row_count};

use crate::answers::{Answer, answer_of};
use crate::inverted::is_inverted;
use crate::queries::{answer_query, joined_query};
use bench_dm::make_database;
use graph_texts_dm::texts_read_back;
use graphs_dm::write_map;
use itoa::Buffer;
use names_dm::{Base, Triples};
use ntriples_reader_dm::read_graph;
use outside_dm::{NoFaultSink, PutError};
use std::alloc::{AllocError, Global};
use table_csv::Database;
use value_dm::Text;

fn base(alloc: Global) -> Result<Base, AllocError>
    ensures { IfOk result (λ base. base ≡ base_text) }
{
    match Base::new(Text::from_str(alloc, "http://example.com/")?) {
        Ok(base) => Ok(base),
        Err(_) => unreachable!(),
    }
}

// The number of rows of all tables.
fn row_count(database: &Database) -> usize
    requires { length database.now.tables ≤ 4096 }
    ensures { result ≡ row_count database.now }
{
    let mut count = 0;
    for t in 0..database.schema().tables().len() {
        count += database.rows_of(t as u32).len();
    }
    count
}

// The triples of the database's map graph, as they are read from its text.
fn map_triples(alloc: Global, base: &Base, database: &Database) -> Result<Triples, AllocError>
    requires { KeepsKeys database.now }
    ensures triples { IfOk result (λ triples. AreTriplesOf graph.Map base.now database.now triples) }
    ensures count { IfOk result (λ triples. HasTriples base.now database.now (length triples)) }
    ensures few { IfOk result (λ triples. length triples ≤ 16777216) }
{
    texts_read_back(base, database);
    let mut out = NoFaultSink::new(alloc);
    match write_map(alloc, base, database, &mut out) {
        Ok(()) => {}
        Err(PutError::Memory) => return Err(AllocError),
        Err(PutError::Failed) => unreachable!(),
    }
    match read_graph(alloc, out.bytes()) {
        Ok(triples) => Ok(triples),
        Err(_) => Err(AllocError),
    }
}

fn word_of(same: bool) -> &'static str
    ensures { IsTrue same → result.now ≡ codes "equal" }
{
    if same { "equal" } else { "different" }
}

/// What was found of a database.
#[derive(Clone, Copy)]
struct Found {
    rows: usize,
    triples: usize,
    inverted: bool,
    answered: Answer,
    joined: Answer,
}

// Appends a number in decimal digits.
fn push_number(text: &mut String, number: usize) -> Result<(), AllocError>
    ensures { OnOk result (string_bytes text.new ≡ string_bytes text.old ++ decimal number) }
{
    let mut digits = Buffer::new();
    text.push_str(digits.format(number))
}

// Appends a label and a number.
fn push_labelled(text: &mut String, label: &str, number: usize) -> Result<(), AllocError>
    ensures { OnOk result (string_bytes text.new ≡ string_bytes text.old ++ (label.now ++ decimal number)) }
{
    text.push_str(label)?;
    push_number(text, number)
}

fn push_answer(text: &mut String, label: &str, found: Answer) -> Result<(), AllocError>
    requires { IsTrue found.same }
    ensures { OnOk result (string_bytes text.new ≡ string_bytes text.old ++ (label.now ++ decimal found.count ++ codes " equal\n")) }
{
    push_labelled(text, label, found.count)?;
    text.push_str(" ")?;
    text.push_str(word_of(found.same))?;
    text.push_str("\n")?;
    Ok(())
}

fn push_counts(text: &mut String, found: &Found) -> Result<(), AllocError>
    requires { IsTrue found.now.inverted }
    ensures { OnOk result (string_bytes text.new ≡ string_bytes text.old ++ (codes "rows " ++ decimal found.now.rows ++ codes "\ntriples " ++ decimal found.now.triples ++ codes "\ninverted equal\n")) }
{
    push_labelled(text, "rows ", found.rows)?;
    push_labelled(text, "\ntriples ", found.triples)?;
    text.push_str("\ninverted ")?;
    text.push_str(word_of(found.inverted))?;
    text.push_str("\n")?;
    Ok(())
}

fn text_of(alloc: Global, found: &Found) -> Result<String, AllocError>
    requires inverted { IsTrue found.now.inverted }
    requires answered { IsTrue found.now.answered.same }
    requires joined { IsTrue found.now.joined.same }
    ensures { IfOk result (λ text. string_bytes text ≡ bench_text found.now.rows found.now.triples found.now.answered.count found.now.joined.count) }
{
    let mut text = String::new(alloc);
    push_counts(&mut text, found)?;
    push_answer(&mut text, "answer ", found.answered)?;
    push_answer(&mut text, "joined ", found.joined)?;
    Ok(text)
}

/// The five lines of `bench` for an `n` from 1 to 50,000: the number of rows of the benchmark's database; the number of triples
/// of its map graph over `http://example.com/`, which is written to memory and read; `inverted equal`, since the tables that the
/// triples stand for are the database's; and of two queries the number of tuples over the tables and `equal`, since their
/// patterns over the triples have the same. Refused for want of memory alone.
pub fn bench_lines(alloc: Global, n: u32) -> Result<String, AllocError>
    requires { n ≤ 50000 }
    ensures { IfOk result (λ text. IsBenchText (generated n) (string_bytes text)) }
{
    let database = make_database(alloc, n)?;
    let base = base(alloc)?;
    let triples = map_triples(alloc, &base, &database)?;
    let inverted = is_inverted(alloc, &base, &database, triples.as_slice())?;
    let answer = answer_query(alloc)?;
    let join = joined_query(alloc)?;
    let answered = answer_of(alloc, &base, &database, answer.get(), &triples)?;
    let joined = answer_of(alloc, &base, &database, join.get(), &triples)?;
    let found = Found {
        rows: row_count(&database),
        triples: triples.len(),
        inverted,
        answered,
        joined,
    };
    text_of(alloc, &found)
}
