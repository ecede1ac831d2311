// Differences of patterns where an attribute may be NULL.
ghost use Rattle.std.specs.Prelude.{◌≡◌, ◌≢◌, [], IfOk};
ghost use Rattle.members_dm.specs.Membership.{IsIn};
ghost use Rattle.pattern_dm.specs.declared.pattern.Condition.TheVariants as conditions;
ghost use Rattle.names_dm.specs.Variables.{variable_of};
ghost use Rattle.pattern_dm.specs.declared.pattern.Operand.TheVariants as operands;
ghost use Rattle.pattern_dm.specs.declared.pattern.Pattern.TheVariants as patterns;
ghost use Rattle.keeping_dm.specs.Guards as spec;

use crate::conditions::{Part, and, bound, not, or};
use crate::patterns::{both, filter, left_join, select, triple};
use crate::renames::right_names;
use crate::selections::projected;
use crate::variables::{marker, right_variable, variable_of};
use facts_dm::Word;
use names_dm::{Iri, Var};
use pattern_dm::{Condition, Operand, Pattern};
use sqlite_items::Boxed;
use std::alloc::{AllocError, Global};
use value_dm::{Text, TryCopy};

// Both parts have the value.
fn is_same_value(alloc: Global, name: &Text) -> Result<Part, AllocError>
    requires { name.now ≢ [] }
    ensures { IfOk result (λ made. made ≡ conditions.SameTerm (operands.Var (variable_of name.now)) (operands.Var (spec.right_variable name.now))) }
{
    let left = variable_of(alloc, name)?;
    let right = right_variable(alloc, name)?;
    Boxed::new(
        alloc,
        Condition::SameTerm(Operand::Var(left), Operand::Var(right)),
    )
}

// The variable is unbound.
fn lacks(alloc: Global, var: Var) -> Result<Part, AllocError>
    ensures { IfOk result (λ made. made ≡ conditions.Not (conditions.Bound var)) }
{
    let bound = Boxed::new(alloc, Condition::Bound(var))?;
    not(alloc, bound)
}

// The left part has no value.
fn lacks_left(alloc: Global, name: &Text) -> Result<Part, AllocError>
    requires { name.now ≢ [] }
    ensures { IfOk result (λ made. made ≡ spec.is_unbound name.now) }
{
    let bound = bound(alloc, name)?;
    not(alloc, bound)
}

// The right part has no value.
fn lacks_right(alloc: Global, name: &Text) -> Result<Part, AllocError>
    requires { name.now ≢ [] }
    ensures { IfOk result (λ made. made ≡ conditions.Not (conditions.Bound (spec.right_variable name.now))) }
{
    let right = right_variable(alloc, name)?;
    lacks(alloc, right)
}

// Neither part has a value.
fn is_null_in_both(alloc: Global, name: &Text) -> Result<Part, AllocError>
    requires { name.now ≢ [] }
    ensures { IfOk result (λ made. made ≡ conditions.And (spec.is_unbound name.now) (conditions.Not (conditions.Bound (spec.right_variable name.now)))) }
{
    let left = lacks_left(alloc, name)?;
    let right = lacks_right(alloc, name)?;
    and(alloc, left, right)
}

// Both parts have the value, or neither has one.
fn is_same_cell(alloc: Global, name: &Text) -> Result<Part, AllocError>
    requires { name.now ≢ [] }
    ensures { IfOk result (λ made. made ≡ spec.is_same_cell name.now) }
{
    let same = is_same_value(alloc, name)?;
    let null = is_null_in_both(alloc, name)?;
    or(alloc, same, null)
}

fn and_same_cells(alloc: Global, condition: Part, names: &[Text]) -> Result<Part, AllocError>
    requires { ¬ IsIn [] names.now }
    ensures { IfOk result (λ made. made ≡ spec.and_same_cells condition names.now) }
{
    let mut all = condition;
    for name in names {
        let same = is_same_cell(alloc, name)?;
        all = and(alloc, all, same)?;
    }
    Ok(all)
}

// The parts have the same cell in each of the attributes.
fn are_same_cells(alloc: Global, names: &[Text]) -> Result<Part, AllocError>
    requires { ¬ IsIn [] names.now }
    ensures { IfOk result (λ made. made ≡ spec.are_same_cells names.now) }
{
    match names {
        [] => Boxed::new(alloc, Condition::True),
        [first, rest @ ..] => {
            let same = is_same_cell(alloc, first)?;
            and_same_cells(alloc, same, rest)
        }
    }
}

// The triple that binds the marker.
fn marker_triple(alloc: Global, class: &Iri) -> Result<Boxed<Pattern>, AllocError>
    ensures { IfOk result (λ made. made ≡ spec.marker_triple class.now) }
{
    let subject = class.copy(alloc)?;
    let predicate = Word::RdfType.iri(alloc)?;
    let object = marker(alloc)?;
    triple(
        alloc,
        Operand::Iri(subject),
        Operand::Iri(predicate),
        Operand::Var(object),
    )
}

// The right part under other variables, and the marker.
fn marked(
    alloc: Global,
    names: &[Text],
    class: &Iri,
    right: Boxed<Pattern>,
) -> Result<Boxed<Pattern>, AllocError>
    requires { ¬ IsIn [] names.now }
    ensures { IfOk result (λ made. made ≡ patterns.And (patterns.Select right (spec.right_names names.now)) (spec.marker_triple class.now)) }
{
    let renames = right_names(alloc, names)?;
    let renamed = select(alloc, right, renames)?;
    let triple = marker_triple(alloc, class)?;
    both(alloc, renamed, triple)
}

// The left part, and the marker where the right part has the same cells.
fn tried(
    alloc: Global,
    names: &[Text],
    class: &Iri,
    left: Boxed<Pattern>,
    right: Boxed<Pattern>,
) -> Result<Boxed<Pattern>, AllocError>
    requires { ¬ IsIn [] names.now }
    ensures { IfOk result (λ made. made ≡ patterns.LeftJoin left (patterns.And (patterns.Select right (spec.right_names names.now)) (spec.marker_triple class.now)) (spec.are_same_cells names.now)) }
{
    let right = marked(alloc, names, class, right)?;
    let same = are_same_cells(alloc, names)?;
    left_join(alloc, left, right, same.into_inner())
}

// The solutions without the marker.
fn unmarked(alloc: Global, part: Boxed<Pattern>) -> Result<Boxed<Pattern>, AllocError>
    ensures { IfOk result (λ made. made ≡ patterns.Filter part (conditions.Not (conditions.Bound spec.marker))) }
{
    let marker = marker(alloc)?;
    let condition = lacks(alloc, marker)?;
    filter(alloc, part, condition.into_inner())
}

/// The solutions of the left pattern that have the same cells, NULL among them, as no solution of the right one (SPARQL 1.1
/// Query Language, section 18.2), over a graph in which the IRI is a class. These attributes are those of both patterns, and
/// their names are not empty. Refused for want of memory alone.
pub fn guarded(
    alloc: Global,
    names: &[Text],
    class: &Iri,
    left: Boxed<Pattern>,
    right: Boxed<Pattern>,
) -> Result<Boxed<Pattern>, AllocError>
    requires { ¬ IsIn [] names.now }
    ensures { IfOk result (λ made. made ≡ spec.guarded names.now class.now left right) }
{
    let tried = tried(alloc, names, class, left, right)?;
    let left_over = unmarked(alloc, tried)?;
    projected(alloc, left_over, names)
}
