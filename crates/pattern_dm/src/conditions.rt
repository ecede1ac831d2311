// Conditions over all rows at once.
ghost use Rattle.std.specs.Prelude.{◌≡◌, IfOk, Some, true, false};
ghost use Rattle.store_dm.specs.Graphs.{IsLawful};
ghost use Rattle.pattern_dm.specs.Masks.{AreMasks, AreSplit};
ghost use Rattle.pattern_dm.specs.Says.{AreSame};
ghost use Rattle.pattern_dm.specs.Sides.{side_value};
ghost use Rattle.pattern_dm.specs.Solved.{AreNumbers, mapping_at};

use crate::masks::{Masks, constant, errors, is_bound, is_missing, is_number, is_same};
use crate::operands::{Side, side_of};
use crate::pattern::{Condition, Operand};
use names_dm::{Term, Var};
use solutions_dm::Solutions;
use std::alloc::{AllocError, Global};
use store_dm::Graph;
use value_dm::same;

// Whether a variable is bound.
fn bound(alloc: Global, name: &Var, rows: &Solutions, graph: &Graph) -> Result<Masks, AllocError>
    requires { AreNumbers graph.now.terms rows.now }
    ensures { IfOk result (λ masks. AreMasks graph.now.terms (Condition.Bound name.now) rows.now masks) }
{
    match rows.column(name) {
        None => constant(alloc, rows.len(), false),
        Some(numbers) => is_bound(alloc, numbers),
    }
}

// Whether two variables have one term.
fn variables(
    alloc: Global,
    a: &Var,
    b: &Var,
    rows: &Solutions,
    graph: &Graph,
) -> Result<Masks, AllocError>
    requires lawful { IsLawful graph.now }
    requires numbers { AreNumbers graph.now.terms rows.now }
    ensures { IfOk result (λ masks. AreSplit rows.now.rows (λ i. AreSame true (mapping_at graph.now.terms rows.now i a.now) (mapping_at graph.now.terms rows.now i b.now)) (λ i. AreSame false (mapping_at graph.now.terms rows.now i a.now) (mapping_at graph.now.terms rows.now i b.now)) masks) }
{
    match rows.column(a) {
        None => errors(alloc, rows.len()),
        Some(first) => match rows.column(b) {
            None => errors(alloc, rows.len()),
            Some(second) => is_same(alloc, first, second),
        },
    }
}

// Whether a variable has a term.
fn variable_and_term(
    alloc: Global,
    name: &Var,
    term: &Term,
    rows: &Solutions,
    graph: &Graph,
) -> Result<Masks, AllocError>
    requires lawful { IsLawful graph.now }
    requires numbers { AreNumbers graph.now.terms rows.now }
    ensures { IfOk result (λ masks. AreSplit rows.now.rows (λ i. AreSame true (mapping_at graph.now.terms rows.now i name.now) (Some term.now)) (λ i. AreSame false (mapping_at graph.now.terms rows.now i name.now) (Some term.now)) masks) }
{
    match rows.column(name) {
        None => errors(alloc, rows.len()),
        Some(numbers) => match graph.id_of(term) {
            None => is_missing(alloc, numbers),
            Some(id) => is_number(alloc, numbers, id),
        },
    }
}

// Whether a variable has the term of an operand.
fn variable_and(
    alloc: Global,
    name: &Var,
    other: &Side,
    rows: &Solutions,
    graph: &Graph,
) -> Result<Masks, AllocError>
    requires lawful { IsLawful graph.now }
    requires numbers { AreNumbers graph.now.terms rows.now }
    ensures { IfOk result (λ masks. AreSplit rows.now.rows (λ i. AreSame true (mapping_at graph.now.terms rows.now i name.now) (side_value other.now (mapping_at graph.now.terms rows.now i))) (λ i. AreSame false (mapping_at graph.now.terms rows.now i name.now) (side_value other.now (mapping_at graph.now.terms rows.now i))) masks) }
{
    match other {
        Side::Var(second) => variables(alloc, name, second, rows, graph),
        Side::Term(term) => variable_and_term(alloc, name, term, rows, graph),
    }
}

// Whether a term is that of an operand.
fn term_and(
    alloc: Global,
    term: &Term,
    other: &Side,
    rows: &Solutions,
    graph: &Graph,
) -> Result<Masks, AllocError>
    requires lawful { IsLawful graph.now }
    requires numbers { AreNumbers graph.now.terms rows.now }
    ensures { IfOk result (λ masks. AreSplit rows.now.rows (λ i. AreSame true (Some term.now) (side_value other.now (mapping_at graph.now.terms rows.now i))) (λ i. AreSame false (Some term.now) (side_value other.now (mapping_at graph.now.terms rows.now i))) masks) }
{
    match other {
        Side::Var(name) => variable_and_term(alloc, name, term, rows, graph),
        Side::Term(second) => constant(alloc, rows.len(), same(term, second)),
    }
}

// Whether two operands have one term.
fn same_term(
    alloc: Global,
    first: &Operand,
    second: &Operand,
    rows: &Solutions,
    graph: &Graph,
) -> Result<Masks, AllocError>
    requires lawful { IsLawful graph.now }
    requires numbers { AreNumbers graph.now.terms rows.now }
    ensures { IfOk result (λ masks. AreMasks graph.now.terms (Condition.SameTerm first.now second.now) rows.now masks) }
{
    let other = side_of(alloc, second)?;
    match side_of(alloc, first)? {
        Side::Var(name) => variable_and(alloc, &name, &other, rows, graph),
        Side::Term(term) => term_and(alloc, &term, &other, rows, graph),
    }
}

/// The rows for which the condition is true, and those for which it is false.
pub fn masks_of(
    alloc: Global,
    condition: &Condition,
    rows: &Solutions,
    graph: &Graph,
) -> Result<Masks, AllocError>
    requires lawful { IsLawful graph.now }
    requires numbers { AreNumbers graph.now.terms rows.now }
    ensures { IfOk result (λ masks. AreMasks graph.now.terms condition.now rows.now masks) }
{
    match condition {
        Condition::True => constant(alloc, rows.len(), true),
        Condition::Bound(name) => bound(alloc, name, rows, graph),
        Condition::SameTerm(first, second) => same_term(alloc, first, second, rows, graph),
        Condition::Not(part) => {
            let part = masks_of(alloc, part.get(), rows, graph)?;
            Ok(part.not())
        }
        Condition::And(left, right) => {
            let left = masks_of(alloc, left.get(), rows, graph)?;
            let right = masks_of(alloc, right.get(), rows, graph)?;
            left.and(alloc, &right)
        }
        Condition::Or(left, right) => {
            let left = masks_of(alloc, left.get(), rows, graph)?;
            let right = masks_of(alloc, right.get(), rows, graph)?;
            left.or(alloc, &right)
        }
    }
}
