// The ranges that triples state, and their look-up.
ghost use Rattle.std.specs.Prelude.{◌≡◌, ◌≤◌, ◌↔◌, IfOk, IsTrue, List, length, map, not, true, false};
ghost use Rattle.std.specs.Cmp.Lexicographic.{pointwise};
ghost use Rattle.std.specs.List.{list_all, starts_with};
ghost use Rattle.std.specs.Ordering.{is_lt, is_le};
ghost use Rattle.std.specs.List.Sorted.{IsPartitionPoint, IsPermutation};
ghost use Rattle.std.specs.Option.{option_cmp};
ghost use Rattle.std.specs.Prelude.{nat_eq};
ghost use Rattle.value_dm.specs.Order.{byte_cmp};
ghost use Rattle.names_dm.specs.Characters.{is_ascii};
ghost use Rattle.names_dm.specs.Statements.{Statement};
ghost use Rattle.consistency_dm.specs.Interpretations.{range_form};
ghost use Rattle.consistency_dm.specs.Ranges as spec;
ghost use Rattle.consistency_dm.specs.Ranges.{AreRangesOf, AreRising, IsKeptOut, all_stated, asks_cmp, asks_in, asks_of, datatype_in, datatype_of, form_asks, is_let_in, stated};
ghost use Rattle.consistency_dm.specs.declared.range.StatedRange.{StatedRange as TheRange};

use facts_dm::Word;
use names_dm::{Iri, Literal, LiteralType, Term, Triple};
use std::alloc::{AllocError, Global};
use std::cmp::Ordering;

const RDF: &str = "http://www.w3.org/1999/02/22-rdf-syntax-ns#";

const RDFS: &str = "http://www.w3.org/2000/01/rdf-schema#";

const XSD: &str = "http://www.w3.org/2001/XMLSchema#";

const XSD_STRING: &str = "http://www.w3.org/2001/XMLSchema#string";

// What a range asks of the objects of its property.
#[derive(Clone, Copy)]
enum Demand<'a> {
    Individual,
    LiteralOf(&'a Iri),
}

/// A stated range that asks something.
#[derive(Clone, Copy)]
pub struct StatedRange<'a> {
    property: &'a Iri,
    demand: Demand<'a>,
}

// Whether the IRI has this text.
pub fn has_text(iri: &Iri, text: &str) -> bool
    requires { IsTrue (list_all is_ascii text.now) }
    ensures { result ≡ pointwise nat_eq iri.now text.now }
{
    iri.as_str() == text
}

fn begins_with(iri: &Iri, namespace: &str) -> bool
    requires { IsTrue (list_all is_ascii namespace.now) }
    ensures { result ≡ starts_with nat_eq iri.now namespace.now }
{
    iri.as_str().starts_with(namespace)
}

fn demand_of_iri(iri: &Iri) -> Option<Demand<'_>>
    ensures { datatype_in result ≡ form_asks (range_form (Term.Iri iri.now)) }
{
    if begins_with(iri, XSD) {
        Some(Demand::LiteralOf(iri))
    } else if begins_with(iri, RDF) || begins_with(iri, RDFS) {
        None
    } else {
        Some(Demand::Individual)
    }
}

// What the object of rdfs:range asks, if anything.
fn demand_of(range: &Term) -> Option<Demand<'_>>
    ensures { datatype_in result ≡ form_asks (range_form range.now) }
{
    match range {
        Term::Iri(iri) => demand_of_iri(iri),
        Term::Blank(_) => Some(Demand::Individual),
        Term::Literal(_) => None,
    }
}

fn stated_range(triple: &Triple) -> Option<StatedRange<'_>>
    ensures { asks_in result ≡ stated triple.now }
{
    if !has_text(triple.predicate(), Word::RdfsRange.as_str()) {
        return None;
    }
    match triple.subject() {
        Term::Iri(property) => {
            let demand = demand_of(triple.object())?;
            Some(StatedRange { property, demand })
        }
        _ => None,
    }
}

fn ranges_in_order(alloc: Global, triples: &[Triple]) -> Result<Vec<StatedRange<'_>>, AllocError>
    ensures { IfOk result (λ made. map asks_of made.items ≡ all_stated triples.now) }
{
    let mut made = Vec::new(alloc);
    for triple in triples {
        if let Some(range) = stated_range(triple) {
            made.push(range)?;
        }
    }
    Ok(made)
}

fn compare_iris(left: &Iri, right: &Iri) -> Ordering
    ensures { result ≡ byte_cmp left.now right.now }
{
    left.as_str().cmp(right.as_str())
}

fn compare_demands(left: Demand<'_>, right: Demand<'_>) -> Ordering
    ensures { result ≡ option_cmp byte_cmp (datatype_of left.entry) (datatype_of right.entry) }
{
    match left {
        Demand::Individual => match right {
            Demand::Individual => Ordering::Equal,
            Demand::LiteralOf(_) => Ordering::Less,
        },
        Demand::LiteralOf(datatype) => match right {
            Demand::Individual => Ordering::Greater,
            Demand::LiteralOf(other) => compare_iris(datatype, other),
        },
    }
}

fn compare_ranges(left: &StatedRange<'_>, right: &StatedRange<'_>) -> Ordering
    ensures { result ≡ asks_cmp (asks_of left.now) (asks_of right.now) }
{
    match compare_iris(left.property, right.property) {
        Ordering::Equal => compare_demands(left.demand, right.demand),
        other => other,
    }
}

fn sort_ranges(ranges: &mut Vec<StatedRange<'_>>)
    ensures moved { IsPermutation ranges.old.items ranges.new.items }
    ensures rising { AreRising ranges.new.items }
{
    ranges.sort_unstable_by(|left, right| compare_ranges(left, right));
}

/// The ranges that the triples state, in the order of their properties and of what they ask. Refused for want of memory alone.
pub fn ranges_of(alloc: Global, triples: &[Triple]) -> Result<Vec<StatedRange<'_>>, AllocError>
    ensures { IfOk result (λ ranges. AreRangesOf triples.now ranges.items) }
{
    let mut ranges = ranges_in_order(alloc, triples)?;
    sort_ranges(&mut ranges);
    Ok(ranges)
}

// Where the ranges of the property begin.
fn start_of(ranges: &[StatedRange<'_>], property: &Iri) -> usize
    requires { AreRising ranges.now }
    ensures bound { result ≤ length ranges.now }
    ensures point { IsPartitionPoint (λ (r : TheRange). is_lt (byte_cmp r.property.now property.now) ≡ true) (λ (r : TheRange). is_lt (byte_cmp r.property.now property.now) ≡ false) ranges.now result }
{
    ranges.partition_point(|range| compare_iris(range.property, property).is_lt())
}

// Where they end.
fn end_of(ranges: &[StatedRange<'_>], property: &Iri) -> usize
    requires { AreRising ranges.now }
    ensures bound { result ≤ length ranges.now }
    ensures point { IsPartitionPoint (λ (r : TheRange). is_le (byte_cmp r.property.now property.now) ≡ true) (λ (r : TheRange). is_le (byte_cmp r.property.now property.now) ≡ false) ranges.now result }
{
    ranges.partition_point(|range| compare_iris(range.property, property).is_le())
}

fn has_datatype(literal: &Literal, datatype: &Iri) -> bool
    ensures { result ≡ spec.has_datatype literal.now.kind datatype.now }
{
    match literal.kind() {
        LiteralType::Plain => has_text(datatype, XSD_STRING),
        LiteralType::Typed(own) => datatype == own,
        LiteralType::Tagged(_) => false,
    }
}

fn is_let_in(demand: Demand<'_>, object: &Term) -> bool
    ensures { result ≡ is_let_in (datatype_of demand.entry) object.now }
{
    match object {
        Term::Literal(literal) => match demand {
            Demand::Individual => false,
            Demand::LiteralOf(datatype) => has_datatype(literal, datatype),
        },
        _ => match demand {
            Demand::Individual => true,
            Demand::LiteralOf(_) => false,
        },
    }
}

// Whether one of the ranges of the triple's predicate keeps its object out. The ranges of a property stand in the order of what
// they ask, so where the first and the last let the object in, all ask the same.
pub fn is_kept_out(ranges: &[StatedRange<'_>], triple: &Triple) -> bool
    requires { AreRising ranges.now }
    ensures { (triples : List Statement) → AreRangesOf triples ranges.now → IsTrue result ↔ IsKeptOut triples triple.now }
{
    let property = triple.predicate();
    let start = start_of(ranges, property);
    let end = end_of(ranges, property);
    if start >= end {
        return false;
    }
    let object = triple.object();
    let by_first = is_let_in(ranges[start].demand, object);
    let by_last = is_let_in(ranges[end - 1].demand, object);
    !(by_first & by_last)
}
