ghost use Rattle.std.specs.Prelude.{◌≡◌, IfOk};

use names_dm::{Iri, Literal, Var};
use solutions_dm::Renames;
use sqlite_items::Boxed;
use std::alloc::{AllocError, Global};
use value_dm::TryCopy;

/// A variable, or the term that it stands for.
#[derive(Drop)]
pub enum Operand {
    Var(Var),
    Iri(Iri),
    Literal(Literal),
}

/// A condition on a solution (SPARQL 1.1 Query Language, section 17.4.1): true, false or an error. `SameTerm` of an
/// unbound variable is an error, and the others hand errors on as SPARQL's `!`, `&&` and `||` do.
#[derive(Drop)]
pub enum Condition {
    True,
    Bound(Var),
    SameTerm(Operand, Operand),
    Not(Boxed<Condition>),
    And(Boxed<Condition>, Boxed<Condition>),
    Or(Boxed<Condition>, Boxed<Condition>),
}

/// A pattern over a graph (SPARQL 1.1 Query Language, section 18.2): its solutions are those of the operator of its
/// name (section 18.5). `Select` gives each `to` what its `from` has, and leaves the other variables away.
#[derive(Drop)]
pub enum Pattern {
    Empty,
    Triple(Operand, Operand, Operand),
    And(Boxed<Pattern>, Boxed<Pattern>),
    LeftJoin(Boxed<Pattern>, Boxed<Pattern>, Condition),
    Union(Boxed<Pattern>, Boxed<Pattern>),
    Minus(Boxed<Pattern>, Boxed<Pattern>),
    Filter(Boxed<Pattern>, Condition),
    Select(Boxed<Pattern>, Renames),
}

impl TryCopy for Operand {
    fn copy(&self, alloc: Global) -> Result<Operand, AllocError> {
        match self {
            Operand::Var(name) => Ok(Operand::Var(name.copy(alloc)?)),
            Operand::Iri(iri) => Ok(Operand::Iri(iri.copy(alloc)?)),
            Operand::Literal(literal) => Ok(Operand::Literal(literal.copy(alloc)?)),
        }
    }
}

// A copy in a box of its own. It stands apart, so that each level of a condition takes little room on the stack.
#[inline(never)]
#[cycle(condition_copy)]
fn boxed_condition(alloc: Global, part: &Condition) -> Result<Boxed<Condition>, AllocError>
    ensures { IfOk result (λ made. made ≡ part.now) }
{
    Boxed::new(alloc, part.copy(alloc)?)
}

impl TryCopy for Condition {
    #[cycle(condition_copy)]
    fn copy(&self, alloc: Global) -> Result<Condition, AllocError> {
        match self {
            Condition::True => Ok(Condition::True),
            Condition::Bound(name) => Ok(Condition::Bound(name.copy(alloc)?)),
            Condition::SameTerm(first, second) => {
                Ok(Condition::SameTerm(first.copy(alloc)?, second.copy(alloc)?))
            }
            Condition::Not(part) => {
                let part = boxed_condition(alloc, part.get())?;
                Ok(Condition::Not(part))
            }
            Condition::And(left, right) => {
                let left = boxed_condition(alloc, left.get())?;
                let right = boxed_condition(alloc, right.get())?;
                Ok(Condition::And(left, right))
            }
            Condition::Or(left, right) => {
                let left = boxed_condition(alloc, left.get())?;
                let right = boxed_condition(alloc, right.get())?;
                Ok(Condition::Or(left, right))
            }
        }
    }
}

#[inline(never)]
fn triple_copy(
    alloc: Global,
    subject: &Operand,
    predicate: &Operand,
    object: &Operand,
) -> Result<Pattern, AllocError>
    ensures { IfOk result (λ made. made ≡ Pattern.Triple subject.now predicate.now object.now) }
{
    let subject = subject.copy(alloc)?;
    let predicate = predicate.copy(alloc)?;
    let object = object.copy(alloc)?;
    Ok(Pattern::Triple(subject, predicate, object))
}

// A copy in a box of its own, as for a condition.
#[inline(never)]
#[cycle(pattern_copy)]
fn boxed_pattern(alloc: Global, part: &Pattern) -> Result<Boxed<Pattern>, AllocError>
    ensures { IfOk result (λ made. made ≡ part.now) }
{
    Boxed::new(alloc, part.copy(alloc)?)
}

impl TryCopy for Pattern {
    #[cycle(pattern_copy)]
    fn copy(&self, alloc: Global) -> Result<Pattern, AllocError> {
        match self {
            Pattern::Empty => Ok(Pattern::Empty),
            Pattern::Triple(s, p, o) => triple_copy(alloc, s, p, o),
            Pattern::And(left, right) => {
                let left = boxed_pattern(alloc, left.get())?;
                let right = boxed_pattern(alloc, right.get())?;
                Ok(Pattern::And(left, right))
            }
            Pattern::LeftJoin(left, right, condition) => {
                let left = boxed_pattern(alloc, left.get())?;
                let right = boxed_pattern(alloc, right.get())?;
                Ok(Pattern::LeftJoin(left, right, condition.copy(alloc)?))
            }
            Pattern::Union(left, right) => {
                let left = boxed_pattern(alloc, left.get())?;
                let right = boxed_pattern(alloc, right.get())?;
                Ok(Pattern::Union(left, right))
            }
            Pattern::Minus(left, right) => {
                let left = boxed_pattern(alloc, left.get())?;
                let right = boxed_pattern(alloc, right.get())?;
                Ok(Pattern::Minus(left, right))
            }
            Pattern::Filter(part, condition) => {
                let part = boxed_pattern(alloc, part.get())?;
                Ok(Pattern::Filter(part, condition.copy(alloc)?))
            }
            Pattern::Select(part, renames) => {
                let part = boxed_pattern(alloc, part.get())?;
                Ok(Pattern::Select(part, renames.copy(alloc)?))
            }
        }
    }
}
