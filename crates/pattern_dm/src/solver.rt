ghost use Rattle.std.specs.Prelude.{◌≡◌, IfOk};
ghost use Rattle.store_dm.specs.Graphs.{IsLawful};
ghost use Rattle.pattern_dm.specs.Formed.{IsWellFormed};
ghost use Rattle.pattern_dm.specs.Solved.{AreSolutions, IsSolved};

use crate::operands::slot_of;
use crate::operators::{either, empty, filtered, joined, left_joined, selected, without};
use crate::pattern::{Operand, Pattern};
use solutions_dm::Solutions;
use std::alloc::{AllocError, Global};
use store_dm::{Graph, triple_rows};

// The solutions of a triple pattern.
fn triple_solutions(
    alloc: Global,
    subject: &Operand,
    predicate: &Operand,
    object: &Operand,
    graph: &Graph,
) -> Result<Solutions, AllocError>
    requires { IsLawful graph.now }
    ensures { IfOk result (λ s. IsSolved graph.now (Pattern.Triple subject.now predicate.now object.now) s) }
{
    let s = slot_of(alloc, subject, graph)?;
    let p = slot_of(alloc, predicate, graph)?;
    let o = slot_of(alloc, object, graph)?;
    let rows = triple_rows(alloc, graph, &s, &p, &o)?;
    Ok(rows)
}

// The solutions over a graph whose terms have one number each.
fn solutions_of(alloc: Global, pattern: &Pattern, graph: &Graph) -> Result<Solutions, AllocError>
    requires formed { IsWellFormed pattern.now }
    requires lawful { IsLawful graph.now }
    ensures { IfOk result (λ s. IsSolved graph.now pattern.now s) }
{
    match pattern {
        Pattern::Empty => empty(alloc),
        Pattern::Triple(s, p, o) => triple_solutions(alloc, s, p, o, graph),
        Pattern::And(left, right) => {
            let left = solutions_of(alloc, left.get(), graph)?;
            let right = solutions_of(alloc, right.get(), graph)?;
            joined(alloc, &left, &right)
        }
        Pattern::LeftJoin(left, right, condition) => {
            let left = solutions_of(alloc, left.get(), graph)?;
            let right = solutions_of(alloc, right.get(), graph)?;
            left_joined(alloc, &left, &right, condition, graph)
        }
        Pattern::Union(left, right) => {
            let left = solutions_of(alloc, left.get(), graph)?;
            let right = solutions_of(alloc, right.get(), graph)?;
            either(alloc, &left, &right)
        }
        Pattern::Minus(left, right) => {
            let left = solutions_of(alloc, left.get(), graph)?;
            let right = solutions_of(alloc, right.get(), graph)?;
            without(alloc, &left, &right)
        }
        Pattern::Filter(part, condition) => {
            let rows = solutions_of(alloc, part.get(), graph)?;
            filtered(alloc, &rows, condition, graph)
        }
        Pattern::Select(part, renames) => {
            let rows = solutions_of(alloc, part.get(), graph)?;
            selected(alloc, &rows, renames)
        }
    }
}

/// Exactly the solutions of a well-formed pattern over the graph's triples, each once (SPARQL 1.1 Query Language,
/// section 18.6, each solution once). Each number is 0 or a term's. Refused for want of memory alone.
pub fn solve(alloc: Global, pattern: &Pattern, graph: &Graph) -> Result<Solutions, AllocError>
    requires { IsWellFormed pattern.now }
    ensures { IfOk result (λ s. AreSolutions graph.now pattern.now s) }
{
    // The call tells that each term of the graph has one number.
    let _count = graph.len();
    let rows = solutions_of(alloc, pattern, graph)?;
    Ok(rows)
}
