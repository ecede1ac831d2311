// Look-ups in a graph by numbers.
ghost use Rattle.std.specs.Prelude.{◌≤◌, IfOk, IfSome, MatchOption, ℕ, length};
ghost use Rattle.roles_dm.specs.Numbers.{HasNumbers};
ghost use Rattle.graph_tables_dm.specs.Listed.{ListsOnce};

use std::alloc::{AllocError, Global};
use store_dm::Graph;

/// The subjects that have the object with the predicate, each once. Refused for want of memory alone.
pub fn subjects(
    alloc: Global,
    graph: &Graph,
    predicate: u32,
    object: u32,
) -> Result<Vec<u32>, AllocError>
    ensures { IfOk result (λ found. ListsOnce (λ subject. HasNumbers graph.now subject predicate object) found.items) }
{
    let _count = graph.len();
    let mut found = Vec::new(alloc);
    if predicate == 0 || object == 0 {
        return Ok(found);
    }
    for (subject, _, _) in graph.find(0, predicate, object) {
        found.push(subject)?;
    }
    Ok(found)
}

/// The subjects and objects of the predicate's triples, each pair once. Refused for want of memory alone.
pub fn pairs(alloc: Global, graph: &Graph, predicate: u32) -> Result<Vec<(u32, u32)>, AllocError>
    ensures { IfOk result (λ found. ListsOnce {X = ℕ × ℕ} (λ pair. HasNumbers graph.now pair.0 predicate pair.1) found.items) }
{
    let _count = graph.len();
    let mut found = Vec::new(alloc);
    if predicate == 0 {
        return Ok(found);
    }
    for (subject, _, object) in graph.find(0, predicate, 0) {
        found.push((subject, object))?;
    }
    Ok(found)
}

/// An object that the subject has with the predicate; None where it has none.
pub fn first_object(graph: &Graph, subject: u32, predicate: u32) -> Option<u32>
    ensures found { MatchOption result ((object : ℕ) → ¬ HasNumbers graph.now subject predicate object) (HasNumbers graph.now subject predicate) }
    ensures low { IfSome result (λ object. 1 ≤ object) }
    ensures high { IfSome result (λ object. object ≤ length graph.now.terms) }
{
    let _count = graph.len();
    if subject == 0 || predicate == 0 {
        return None;
    }
    let (_, _, object) = graph.find(subject, predicate, 0).next()?;
    Some(object)
}
