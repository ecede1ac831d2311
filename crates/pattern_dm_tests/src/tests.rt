use names_dm::{Iri, Literal, LiteralType, Term, Triple, Triples, Var};
use pattern_dm::{Operand, Pattern, is_well_formed, solve};
use sqlite_items::Boxed;
use std::alloc::Global;
use store_dm::Graph;
use value_dm::Text;

const MANY: u32 = 600_000;

fn iri(alloc: Global, word: &str) -> Option<Iri> {
    let letters = format!(in alloc; "http://a/{word}").ok()?;
    Iri::new(Text::from_string(letters))
}

fn triple(alloc: Global, subject: &str, predicate: &str, object: &str) -> Option<Triple> {
    let subject = Term::Iri(iri(alloc, subject)?);
    let letters = Text::from_str(alloc, object).ok()?;
    let object = Term::Literal(Literal::new(letters, LiteralType::Plain));
    Triple::new(subject, iri(alloc, predicate)?, object)
}

fn push_two(alloc: Global, triples: &mut Triples, number: u32) -> Option<()> {
    let subject = format!(in alloc; "{number}").ok()?;
    triples
        .push(triple(alloc, subject.as_str(), "p", "x")?)
        .ok()?;
    triples
        .push(triple(alloc, subject.as_str(), "q", "z")?)
        .ok()
}

fn built(alloc: Global, triples: Triples) -> Option<Graph> {
    if triples.len() > 16_777_216 {
        None
    } else {
        Graph::build(alloc, triples).ok()
    }
}

// A graph of two triples for each number from 1.
fn many(alloc: Global) -> Option<Graph> {
    let mut triples = Triples::new(alloc);
    for before in 0..MANY {
        push_two(alloc, &mut triples, before + 1)?;
    }
    built(alloc, triples)
}

fn number(alloc: Global, graph: &Graph, word: &str) -> Option<u32> {
    graph.id_of(&Term::Iri(iri(alloc, word)?))
}

fn has_one(alloc: Global, graph: &Graph, subject: u32, predicate: u32) -> Option<bool> {
    let word = format!(in alloc; "{subject}").ok()?;
    let number = number(alloc, graph, word.as_str())?;
    Some(graph.find(number, predicate, 0).count() == 1)
}

// Whether each subject has one value.
fn have_one(alloc: Global, graph: &Graph) -> Option<bool> {
    let predicate = number(alloc, graph, "p")?;
    for before in 0..MANY {
        if has_one(alloc, graph, before + 1, predicate) != Some(true) {
            return Some(false);
        }
    }
    Some(true)
}

fn variable(alloc: Global, name: &str) -> Option<Operand> {
    let name = Text::from_str(alloc, name).ok()?;
    Some(Operand::Var(Var::new(name)?))
}

// The triples of a predicate: their subjects, and their objects as this variable.
fn part(alloc: Global, predicate: &str, object: &str) -> Option<Boxed<Pattern>> {
    let subject = variable(alloc, "s")?;
    let predicate = Operand::Iri(iri(alloc, predicate)?);
    let object = variable(alloc, object)?;
    Boxed::new(alloc, Pattern::Triple(subject, predicate, object)).ok()
}

fn solved(alloc: Global, graph: &Graph, pattern: &Pattern) -> Option<usize> {
    if is_well_formed(pattern) {
        Some(solve(alloc, pattern, graph).ok()?.len())
    } else {
        None
    }
}

// How many solutions a join has, and a difference.
fn counts(alloc: Global, graph: &Graph) -> Option<(usize, usize)> {
    let joined = Pattern::And(part(alloc, "p", "v")?, part(alloc, "q", "w")?);
    let joined = solved(alloc, graph, &joined)?;
    let left = Pattern::Minus(part(alloc, "p", "v")?, part(alloc, "q", "w")?);
    Some((joined, solved(alloc, graph, &left)?))
}

fn are_found(alloc: Global) -> Option<bool> {
    let graph = many(alloc)?;
    let counts = counts(alloc, &graph)?;
    Some((counts == (600_000, 0)) & have_one(alloc, &graph)?)
}

#[test]
fn many_subjects(rt: HostRuntime) {
    let found = are_found(rt.alloc()).unwrap_or(false);
    assert!(rt; found);
}
