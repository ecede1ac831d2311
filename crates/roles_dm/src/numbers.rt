// A graph of numbers, and what is looked up in it.
ghost use Rattle.std.specs.Prelude.{◌≡◌, ◌↔◌, ◌≤◌, IfOk, IsTrue, List, length};
ghost use Rattle.names_dm.specs.Statements.{Statement};
ghost use Rattle.std.specs.Option.{option_copied};
ghost use Rattle.roles_dm.specs.Roles.{role_at};
ghost use Rattle.roles_dm.specs.Numbered.{AreNumbers};
ghost use Rattle.roles_dm.specs.Numbers.{HasNumbers, IsGraphOf, IsNumberOf, TellsOnly};

use crate::numbered::{Numbered, all_numbered};
use crate::role::Role;
use names_dm::{Term, Triple};
use std::alloc::{AllocError, Global};
use store_dm::{Graph, NumberedGraph};

/// A graph, and the numbers of its triples in the order in which they were given.
#[derive(Drop)]
pub struct GraphWithNumbers {
    pub graph: Graph,
    pub numbers: Vec<Numbered>,
}

/// The graph of the triples, with a number for each term, and the numbers of each triple. Refused for want of memory alone.
pub fn graph_of(alloc: Global, triples: &[Triple]) -> Result<GraphWithNumbers, AllocError>
    requires { length triples.now ≤ 16777216 }
    ensures graph { IfOk result (λ made. IsGraphOf made.graph triples.now) }
    ensures numbers { IfOk result (λ made. AreNumbers made.graph triples.now made.numbers.items) }
{
    let NumberedGraph { graph, triads } = Graph::build_from(alloc, triples)?;
    let _count = graph.len();
    let numbers = all_numbered(alloc, triads.as_slice())?;
    Ok(GraphWithNumbers { graph, numbers })
}

/// The last number of a term, which is how many there are. Refused where it fits no u32, as that of no graph does.
pub fn last_number(graph: &Graph) -> Result<u32, AllocError>
    ensures { IfOk result (λ last. last ≡ length graph.now.terms) }
{
    let count = graph.term_count();
    if count > u32::MAX as usize {
        return Err(AllocError);
    }
    Ok(count as u32)
}

/// The number of the term, 0 where no triple holds it.
pub fn number_of(graph: &Graph, term: &Term) -> u32
    ensures { IsNumberOf graph.now term.now result }
{
    match graph.id_of(term) {
        Some(number) => number,
        None => 0,
    }
}

/// Whether the graph has the triple of these numbers.
pub fn has(graph: &Graph, subject: u32, predicate: u32, object: u32) -> bool
    ensures { IsTrue result ↔ HasNumbers graph.now subject predicate object }
{
    if subject == 0 || predicate == 0 || object == 0 {
        return false;
    }
    graph.find(subject, predicate, object).next().is_some()
}

/// The one object that the subject has with the predicate; None where it has none, or several.
pub fn only_object(graph: &Graph, subject: u32, predicate: u32) -> Option<u32>
    ensures { TellsOnly graph.now subject predicate result }
{
    let _count = graph.len();
    if subject == 0 || predicate == 0 {
        return None;
    }
    let mut found = graph.find(subject, predicate, 0);
    let (_, _, object) = found.next()?;
    match found.next() {
        None => Some(object),
        Some(_) => None,
    }
}

/// The role of the number, where 0 has none.
pub fn role_numbered(roles: &[Role], number: u32) -> Option<&Role>
    ensures { option_copied result ≡ role_at roles.now number }
{
    if number == 0 {
        return None;
    }
    roles.get(number as usize - 1)
}
