// Joins on attributes that have values.
ghost use Rattle.std.specs.Prelude.{◌≡◌, [], IfNone, IfOk, IfSome};
ghost use Rattle.members_dm.specs.Membership.{IsIn};
ghost use Rattle.pattern_dm.specs.declared.pattern.Pattern.{Pattern as ThePattern};
ghost use Rattle.pattern_dm.specs.declared.pattern.Pattern.TheVariants as patterns;
ghost use Rattle.keeping_dm.specs.Guards as spec;

use crate::conditions::{Part, and_bound, bound};
use crate::patterns::{both, filter};
use pattern_dm::Pattern;
use sqlite_items::Boxed;
use std::alloc::{AllocError, Global};
use value_dm::Text;

// Each of the attributes has a value; None where there are none.
fn all_bound(alloc: Global, names: &[Text]) -> Result<Option<Part>, AllocError>
    requires { ¬ IsIn [] names.now }
    ensures none { IfOk result (λ made. IfNone made (names.now ≡ [])) }
    ensures some { IfOk result (λ made. IfSome made (λ f. (p : ThePattern) → spec.where_bound names.now p ≡ patterns.Filter p f)) }
{
    match names {
        [] => Ok(None),
        [first, rest @ ..] => {
            let bound = bound(alloc, first)?;
            let all = and_bound(alloc, bound, rest)?;
            Ok(Some(all))
        }
    }
}

// Where there are attributes, only the solutions in which each of them has a value.
fn where_bound(
    alloc: Global,
    names: &[Text],
    part: Boxed<Pattern>,
) -> Result<Boxed<Pattern>, AllocError>
    requires { ¬ IsIn [] names.now }
    ensures { IfOk result (λ made. made ≡ spec.where_bound names.now part) }
{
    let Some(condition) = all_bound(alloc, names)? else {
        return Ok(part);
    };
    filter(alloc, part, condition.into_inner())
}

/// The natural join of two patterns with these attributes in common (SPARQL 1.1 Query Language, section 18.2), whose names
/// are not empty: NULL is joined with nothing. Refused for want of memory alone.
pub fn joined(
    alloc: Global,
    common: &[Text],
    left: Boxed<Pattern>,
    right: Boxed<Pattern>,
) -> Result<Boxed<Pattern>, AllocError>
    requires { ¬ IsIn [] common.now }
    ensures { IfOk result (λ made. made ≡ spec.joined common.now left right) }
{
    let left = where_bound(alloc, common, left)?;
    let right = where_bound(alloc, common, right)?;
    both(alloc, left, right)
}
