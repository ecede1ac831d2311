ghost use Rattle.std.specs.Prelude.{◌≤◌, IfOk, length};
ghost use Rattle.pattern_dm.specs.Formed.{IsWellFormed};
ghost use Rattle.pattern_lines_dm.specs.Lines.{AreSolutionLines};

use names_dm::{Triples, Vars};
use pattern_dm::{Pattern, answer_grid, solve};
use std::alloc::{AllocError, Global};
use store_dm::Graph;
use tsv_dm::tsv;

/// The lines of a well-formed pattern's solutions over at most 16,777,216 triples, in UTF-8 (after SPARQL 1.1 Query Results
/// CSV and TSV Formats, section 4): the variables of a header, and then what solutions bind them to, each row once and in
/// order, with nothing for a variable that is unbound. Refused for want of memory alone.
pub fn solution_lines(
    alloc: Global,
    triples: Triples,
    pattern: &Pattern,
    header: &Vars,
) -> Result<Vec<u8>, AllocError>
    requires formed { IsWellFormed pattern.now }
    requires count { length triples ≤ 16777216 }
    ensures { IfOk result (λ text. AreSolutionLines triples pattern.now header.now text.items) }
{
    let graph = Graph::build(alloc, triples)?;
    let solutions = solve(alloc, pattern, &graph)?;
    let grid = answer_grid(alloc, header, &solutions, &graph)?;
    tsv(alloc, header, &grid)
}
