// Conditions and patterns in boxes, made of their parts.
ghost use Rattle.std.specs.Prelude.{◌≡◌, IfOk};
ghost use Rattle.sparql_text_dm.specs.Grammar.{connected};
ghost use Rattle.sparql_text_dm.specs.Pairs.{paired};

use crate::connective::Connective;
use crate::pairing::Pairing;
use names_dm::Var;
use pattern_dm::{Condition, Operand, Pattern};
use solutions_dm::Renames;
use sqlite_items::Boxed;
use std::alloc::{AllocError, Global};

pub(crate) fn truth(alloc: Global) -> Result<Boxed<Condition>, AllocError>
    ensures { IfOk result (λ made. made ≡ Condition.True) }
{
    Boxed::new(alloc, Condition::True)
}

pub(crate) fn bound(alloc: Global, name: Var) -> Result<Boxed<Condition>, AllocError>
    ensures { IfOk result (λ made. made ≡ Condition.Bound name) }
{
    Boxed::new(alloc, Condition::Bound(name))
}

pub(crate) fn same_term(
    alloc: Global,
    first: Operand,
    second: Operand,
) -> Result<Boxed<Condition>, AllocError>
    ensures { IfOk result (λ made. made ≡ Condition.SameTerm first second) }
{
    Boxed::new(alloc, Condition::SameTerm(first, second))
}

pub(crate) fn not(alloc: Global, part: Boxed<Condition>) -> Result<Boxed<Condition>, AllocError>
    ensures { IfOk result (λ made. made ≡ Condition.Not part) }
{
    Boxed::new(alloc, Condition::Not(part))
}

pub(crate) fn connected(
    alloc: Global,
    mark: Connective,
    left: Boxed<Condition>,
    right: Boxed<Condition>,
) -> Result<Boxed<Condition>, AllocError>
    ensures { IfOk result (λ made. made ≡ connected mark left right) }
{
    match mark {
        Connective::And => Boxed::new(alloc, Condition::And(left, right)),
        Connective::Or => Boxed::new(alloc, Condition::Or(left, right)),
    }
}

pub(crate) fn empty(alloc: Global) -> Result<Boxed<Pattern>, AllocError>
    ensures { IfOk result (λ made. made ≡ Pattern.Empty) }
{
    Boxed::new(alloc, Pattern::Empty)
}

pub(crate) fn triple(
    alloc: Global,
    subject: Operand,
    predicate: Operand,
    object: Operand,
) -> Result<Boxed<Pattern>, AllocError>
    ensures { IfOk result (λ made. made ≡ Pattern.Triple subject predicate object) }
{
    Boxed::new(alloc, Pattern::Triple(subject, predicate, object))
}

pub(crate) fn paired(
    alloc: Global,
    pairing: Pairing,
    left: Boxed<Pattern>,
    right: Boxed<Pattern>,
) -> Result<Boxed<Pattern>, AllocError>
    ensures { IfOk result (λ made. made ≡ paired pairing left right) }
{
    match pairing {
        Pairing::And => Boxed::new(alloc, Pattern::And(left, right)),
        Pairing::Union => Boxed::new(alloc, Pattern::Union(left, right)),
        Pairing::Minus => Boxed::new(alloc, Pattern::Minus(left, right)),
    }
}

pub(crate) fn left_join(
    alloc: Global,
    left: Boxed<Pattern>,
    right: Boxed<Pattern>,
    condition: Boxed<Condition>,
) -> Result<Boxed<Pattern>, AllocError>
    ensures { IfOk result (λ made. made ≡ Pattern.LeftJoin left right condition) }
{
    Boxed::new(
        alloc,
        Pattern::LeftJoin(left, right, condition.into_inner()),
    )
}

pub(crate) fn filter(
    alloc: Global,
    part: Boxed<Pattern>,
    condition: Boxed<Condition>,
) -> Result<Boxed<Pattern>, AllocError>
    ensures { IfOk result (λ made. made ≡ Pattern.Filter part condition) }
{
    Boxed::new(alloc, Pattern::Filter(part, condition.into_inner()))
}

pub(crate) fn select(
    alloc: Global,
    part: Boxed<Pattern>,
    renames: Renames,
) -> Result<Boxed<Pattern>, AllocError>
    ensures { IfOk result (λ made. made ≡ Pattern.Select part renames) }
{
    Boxed::new(alloc, Pattern::Select(part, renames))
}
