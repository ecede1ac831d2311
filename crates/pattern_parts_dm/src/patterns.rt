// The operators of patterns. A pattern stands in a box.
ghost use Rattle.std.specs.Prelude.{◌≡◌, IfOk};
ghost use Rattle.pattern_dm.specs.declared.pattern.Pattern.TheVariants as patterns;

use pattern_dm::{Condition, Operand, Pattern};
use solutions_dm::Renames;
use sqlite_items::Boxed;
use std::alloc::{AllocError, Global};

/// The pattern whose one solution binds nothing (SPARQL 1.1 Query Language, section 18.2). Refused for want of memory
/// alone.
pub fn empty(alloc: Global) -> Result<Boxed<Pattern>, AllocError>
    ensures { IfOk result (λ made. made ≡ patterns.Empty) }
{
    Boxed::new(alloc, Pattern::Empty)
}

/// The pattern of one triple (SPARQL 1.1 Query Language, section 18.2). Refused for want of memory alone.
pub fn triple(
    alloc: Global,
    subject: Operand,
    predicate: Operand,
    object: Operand,
) -> Result<Boxed<Pattern>, AllocError>
    ensures { IfOk result (λ made. made ≡ patterns.Triple subject predicate object) }
{
    Boxed::new(alloc, Pattern::Triple(subject, predicate, object))
}

/// The Join of two patterns (SPARQL 1.1 Query Language, section 18.2). Refused for want of memory alone.
pub fn both(
    alloc: Global,
    left: Boxed<Pattern>,
    right: Boxed<Pattern>,
) -> Result<Boxed<Pattern>, AllocError>
    ensures { IfOk result (λ made. made ≡ patterns.And left right) }
{
    Boxed::new(alloc, Pattern::And(left, right))
}

/// The LeftJoin of two patterns under a condition (SPARQL 1.1 Query Language, section 18.2). Refused for want of
/// memory alone.
pub fn left_join(
    alloc: Global,
    left: Boxed<Pattern>,
    right: Boxed<Pattern>,
    condition: Condition,
) -> Result<Boxed<Pattern>, AllocError>
    ensures { IfOk result (λ made. made ≡ patterns.LeftJoin left right condition) }
{
    Boxed::new(alloc, Pattern::LeftJoin(left, right, condition))
}

/// The Union of two patterns (SPARQL 1.1 Query Language, section 18.2). Refused for want of memory alone.
pub fn union(
    alloc: Global,
    left: Boxed<Pattern>,
    right: Boxed<Pattern>,
) -> Result<Boxed<Pattern>, AllocError>
    ensures { IfOk result (λ made. made ≡ patterns.Union left right) }
{
    Boxed::new(alloc, Pattern::Union(left, right))
}

/// The Minus of two patterns (SPARQL 1.1 Query Language, section 18.2). Refused for want of memory alone.
pub fn minus(
    alloc: Global,
    left: Boxed<Pattern>,
    right: Boxed<Pattern>,
) -> Result<Boxed<Pattern>, AllocError>
    ensures { IfOk result (λ made. made ≡ patterns.Minus left right) }
{
    Boxed::new(alloc, Pattern::Minus(left, right))
}

/// The solutions of a pattern for which a condition is true (SPARQL 1.1 Query Language, section 18.2). Refused for want
/// of memory alone.
pub fn filter(
    alloc: Global,
    part: Boxed<Pattern>,
    condition: Condition,
) -> Result<Boxed<Pattern>, AllocError>
    ensures { IfOk result (λ made. made ≡ patterns.Filter part condition) }
{
    Boxed::new(alloc, Pattern::Filter(part, condition))
}

/// The solutions of a pattern under other names.
pub fn select(
    alloc: Global,
    part: Boxed<Pattern>,
    renames: Renames,
) -> Result<Boxed<Pattern>, AllocError>
    ensures { IfOk result (λ made. made ≡ patterns.Select part renames) }
{
    Boxed::new(alloc, Pattern::Select(part, renames))
}
