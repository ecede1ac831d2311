ghost use Rattle.std.specs.Prelude.{◌≡◌, ◌≢◌, ◌↔◌, ◌<◌, ◌≤◌, ◌-◌, ◌^◌, ◌++◌, ◌∷◌, [], ℕ, List, AllPairs, Contains, IfOk, IfSome, IsSome, OnOk, Some, length, map};
ghost use Rattle.std.specs.List.{AllZip};
ghost use Rattle.names_dm.specs.Statements.{Statement};
ghost use Rattle.store_dm.specs.Graphs.{AreNamed, AreNumbered, AreUsed, HasTriple, HoldsTerm, IsGraphOf, IsLawful, Names};
ghost use Rattle.store_dm.specs.Terms.{AreOneToOne, term_at};
ghost use Rattle.store_dm.specs.Triads.{FitsAll, IsPrefix};
ghost use Rattle.store_dm.specs.Turns.{matches_left, turn, turned};
ghost use Rattle.store_dm.specs.declared.listing.Triad.{Triad as TheTriad};

use crate::dictionary::Dictionary;
use crate::listing::{Listing, Triad};
use crate::matches::{Beginning, Matches};
use names_dm::{Term, Triple, Triples};
use std::alloc::{AllocError, Global};
use std::marker::Model;
use value_dm::TryCopy;

/// A graph, and the numbers of its triples in the order in which they were given.
#[derive(Drop)]
pub struct NumberedGraph {
    pub graph: Graph,
    pub triads: Vec<Triad>,
}

/// A set of triples. Contracts see its terms, in the order of their numbers, and its triples as numbers.
#[derive(Drop)]
pub struct Graph {
    terms: Dictionary,
    by_subject: Listing,
    by_predicate: Listing,
    by_object: Listing,
}

impl Model for Graph {
    ghost use Rattle.store_dm.specs.Graphs.{GraphValue, IsGraph};

    ghost Value = { GraphValue };

    ghost view = { λ g. record { terms = g.terms; triples = g.by_subject } };

    ghost invariant = { λ g. IsGraph g.terms g.by_subject g.by_predicate g.by_object };
}

impl Graph {
    /// The graph of these triples.
    pub fn build(alloc: Global, triples: Triples) -> Result<Graph, AllocError>
        requires { length triples ≤ 16777216 }
        ensures { IfOk result (λ g. (t : Statement) → HasTriple g t ↔ Contains triples t) }
    {
        let mut terms = Dictionary::new(alloc);
        let mut triads = Vec::new(alloc);
        for triple in triples.into_vec() {
            add_triple(&mut terms, &mut triads, triple)?;
        }
        graph_of(alloc, terms, triads)
    }

    /// The graph of these triples, and their numbers in order. A term is copied once, however many triples hold it. Refused for want of
    /// memory alone.
    pub fn build_from(alloc: Global, triples: &[Triple]) -> Result<NumberedGraph, AllocError>
        requires { length triples.now ≤ 16777216 }
        ensures built { IfOk result (λ made. (t : Statement) → HasTriple made.graph t ↔ Contains triples.now t) }
        ensures numbers { IfOk result (λ made. AllZip (Names made.graph.terms) made.triads.items triples.now) }
    {
        let mut terms = Dictionary::new(alloc);
        let mut triads = Vec::new(alloc);
        for triple in triples {
            add_copied(alloc, &mut terms, &mut triads, triple)?;
        }
        let kept = Vec::from_slice(alloc, triads.as_slice())?;
        let graph = graph_of(alloc, terms, triads)?;
        Ok(NumberedGraph {
            graph,
            triads: kept,
        })
    }

    /// How many triples there are. Each term stands in one, and no term has two numbers.
    pub fn len(&self) -> usize
        ensures count { result ≡ length self.now.triples }
        ensures lawful { IsLawful self.now }
    {
        self.by_subject.len()
    }

    /// How many terms there are. Their numbers are those from 1 to it.
    pub fn term_count(&self) -> usize
        ensures { result ≡ length self.now.terms }
    {
        self.terms.len()
    }

    /// The number of a term, None exactly where no triple holds it.
    pub fn id_of(&self, term: &Term) -> Option<u32>
        ensures number { IfSome result (λ n. term_at self.now.terms n ≡ Some term.now) }
        ensures found { IsSome result ↔ HoldsTerm self.now term.now }
    {
        self.terms.id_of(term)
    }

    /// The term of a number.
    pub fn term_of(&self, id: u32) -> &Term
        requires low { 1 ≤ id }
        requires high { id ≤ length self.now.terms }
        ensures { term_at self.now.terms id ≡ Some result.now }
    {
        self.terms.term_of(id)
    }

    /// The matching triples, each once. A number that is 0 is free.
    pub fn find(&self, s: u32, p: u32, o: u32) -> Matches<'_>
        ensures exact { (a b c : ℕ) → Contains (matches_left result) (a, b, c) ↔ (Contains self.now.triples (record { first = a; second = b; third = c }) × FitsAll (record { first = s; second = p; third = o }) (record { first = a; second = b; third = c })) }
        ensures once { AllPairs (λ x y. x ≢ y) (matches_left result) }
    {
        match beginning_of(s, p, o) {
            Beginning::Subject => {
                let from = Triad {
                    first: s,
                    second: p,
                    third: o,
                };
                Matches {
                    triads: self.by_subject.range(from),
                    beginning: Beginning::Subject,
                }
            }
            Beginning::Predicate => {
                let from = Triad {
                    first: p,
                    second: o,
                    third: s,
                };
                Matches {
                    triads: self.by_predicate.range(from),
                    beginning: Beginning::Predicate,
                }
            }
            Beginning::Object => {
                let from = Triad {
                    first: o,
                    second: s,
                    third: p,
                };
                Matches {
                    triads: self.by_object.range(from),
                    beginning: Beginning::Object,
                }
            }
        }
    }
}

// Numbers the terms of a triple, and adds their numbers.
fn add_triple(
    terms: &mut Dictionary,
    triads: &mut Vec<Triad>,
    triple: Triple,
) -> Result<(), AllocError>
    requires { length terms.old < 2 ^ 32 - 3 }
    ensures { OnOk result ((ts : List Statement) → AreNumbered terms.old triads.old.items ts → AreNumbered terms.new triads.new.items (ts ++ triple ∷ [])) }
{
    let (subject, predicate, object) = triple.into_terms();
    let first = terms.number(subject)?;
    let second = terms.number(predicate)?;
    let third = terms.number(object)?;
    triads.push(Triad {
        first,
        second,
        third,
    })?;
    Ok(())
}

// Numbers the terms of a triple, which are copied where they are new, and adds their numbers.
fn add_copied(
    alloc: Global,
    terms: &mut Dictionary,
    triads: &mut Vec<Triad>,
    triple: &Triple,
) -> Result<(), AllocError>
    requires small { length terms.old < 2 ^ 32 - 3 }
    requires apart { AreOneToOne terms.old }
    ensures { OnOk result ((ts : List Statement) → AreNumbered terms.old triads.old.items ts → AreNumbered terms.new triads.new.items (ts ++ triple.now ∷ [])) }
{
    let first = terms.number_copied(alloc, triple.subject())?;
    let second = terms.number(Term::Iri(triple.predicate().copy(alloc)?))?;
    let third = terms.number_copied(alloc, triple.object())?;
    triads.push(Triad {
        first,
        second,
        third,
    })?;
    Ok(())
}

// The graph of numbered triples.
fn graph_of(alloc: Global, terms: Dictionary, triads: Vec<Triad>) -> Result<Graph, AllocError>
    requires used { AreUsed terms triads.items }
    requires named { AreNamed terms triads.items }
    requires small { length terms < 2 ^ 32 }
    requires apart { AreOneToOne terms }
    ensures { IfOk result (λ g. IsGraphOf terms triads.items g) }
{
    let predicates = turn_all(alloc, Beginning::Predicate, triads.as_slice())?;
    let objects = turn_all(alloc, Beginning::Object, triads.as_slice())?;
    let by_subject = Listing::new(alloc, triads)?;
    let by_predicate = Listing::new(alloc, predicates)?;
    let by_object = Listing::new(alloc, objects)?;
    Ok(Graph {
        terms,
        by_subject,
        by_predicate,
        by_object,
    })
}

// The triads of triples that begin with another number.
fn turn_all(alloc: Global, beginning: Beginning, triads: &[Triad]) -> Result<Vec<Triad>, AllocError>
    ensures { IfOk result (λ made. made.items ≡ map (turn beginning) triads.now) }
{
    let mut made = Vec::new(alloc);
    for triad in triads {
        made.push(turn(beginning, *triad))?;
    }
    Ok(made)
}

// A triple that begins with another number.
fn turn(beginning: Beginning, x: Triad) -> Triad
    ensures { result ≡ turn beginning x }
{
    match beginning {
        Beginning::Subject => x,
        Beginning::Predicate => Triad {
            first: x.second,
            second: x.third,
            third: x.first,
        },
        Beginning::Object => Triad {
            first: x.third,
            second: x.first,
            third: x.second,
        },
    }
}

// The list whose triads begin with the fixed numbers.
fn beginning_of(s: u32, p: u32, o: u32) -> Beginning
    ensures { IsPrefix (turned result s p o) }
{
    if o != 0 && p == 0 {
        Beginning::Object
    } else if s == 0 && p != 0 {
        Beginning::Predicate
    } else {
        Beginning::Subject
    }
}
