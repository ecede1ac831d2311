use names_dm::{Var, Vars};
use pattern_dm::{Pattern, is_well_formed, sparql_text};
use solutions_dm::{Column, PairList, RowPair};
use sparql_text_dm::read_sparql;
use std::alloc::Global;
use store_dm::Slot;
use value_dm::{Sequence, Text, TryCopy};

// A pattern with each of its operators, conditions and terms.
const TEXT: &str =
    "SELECT DISTINCT ?a WHERE { { { { SELECT ?a (?b AS ?c) WHERE { ?a <http://a/p> \"1\"@en . } } UNION { { } MINUS { } } } { { } FILTER ( ( ( ! bound(?a) ) && ( sameTerm(?a, <http://a/b>) || true ) ) ) } } OPTIONAL { { } FILTER ( bound(?a) ) } }";

fn written(alloc: Global, header: &Vars, pattern: &Pattern) -> Option<String> {
    if (header.len() == 0) | !is_well_formed(pattern) {
        None
    } else {
        sparql_text(alloc, header, pattern).ok()
    }
}

// Whether the copy of the pattern that is read is written as the text again.
fn is_pattern_copied(alloc: Global) -> Option<bool> {
    let read = read_sparql(alloc, TEXT.as_bytes()).ok()?;
    let mut copies = Vec::new(alloc);
    copies.push(read.pattern.get().copy(alloc).ok()?).ok()?;
    let text = written(alloc, &read.header, copies.last()?)?;
    Some(text.as_str() == TEXT)
}

fn var(alloc: Global) -> Option<Var> {
    Var::new(Text::from_str(alloc, "a").ok()?)
}

fn column(alloc: Global) -> Option<Column> {
    let mut numbers = Sequence::new(alloc);
    numbers.push(7u32).ok()?;
    let name = var(alloc)?;
    Column { name, numbers }.copy(alloc).ok()
}

fn is_column_copied(alloc: Global) -> Option<bool> {
    let column = column(alloc)?;
    Some((column.name.as_str() == "a") & (column.numbers.as_slice() == [7].as_slice()))
}

fn are_pairs_copied(alloc: Global) -> Option<bool> {
    let mut pairs = PairList::new(alloc);
    pairs.push(RowPair { left: 1, right: 2 }).ok()?;
    let copy = pairs.copy(alloc).ok()?;
    let pair = copy.as_slice().first()?;
    Some((pair.left == 1) & (pair.right == 2))
}

fn slot(alloc: Global, sort: char) -> Option<Slot> {
    match sort {
        'v' => Some(Slot::Var(var(alloc)?)),
        'f' => Some(Slot::Fixed(7)),
        _ => Some(Slot::Missing),
    }
}

fn is_slot_copied(alloc: Global, sort: char) -> Option<bool> {
    let mut slots = Vec::new(alloc);
    slots.push(slot(alloc, sort)?.copy(alloc).ok()?).ok()?;
    Some(match (sort, slots.last()?) {
        ('v', Slot::Var(name)) => name.as_str() == "a",
        ('f', Slot::Fixed(number)) => *number == 7,
        (_, Slot::Missing) => sort == 'm',
        _ => false,
    })
}

fn are_copied(alloc: Global) -> Option<bool> {
    let slots = is_slot_copied(alloc, 'v')?
        & is_slot_copied(alloc, 'f')?
        & is_slot_copied(alloc, 'm')?;
    Some(is_pattern_copied(alloc)? & is_column_copied(alloc)? & are_pairs_copied(alloc)? & slots)
}

#[test]
fn copies(rt: HostRuntime) {
    let found = are_copied(rt.alloc()).unwrap_or(false);
    assert!(rt; found);
}
