// Patterns under some names.
ghost use Rattle.std.specs.Prelude.{◌≡◌, ◌≢◌, [], IfOk};
ghost use Rattle.members_dm.specs.Membership.{IsIn};
ghost use Rattle.pattern_dm.specs.declared.pattern.Pattern.TheVariants as patterns;
ghost use Rattle.keeping_dm.specs.Guards as spec;

use crate::patterns::select;
use crate::renames::{new_names, same_names};
use pattern_dm::Pattern;
use sqlite_items::Boxed;
use std::alloc::{AllocError, Global};
use value_dm::Text;

/// The solutions of a pattern in these attributes alone (SPARQL 1.1 Query Language, section 18.2), whose names are not
/// empty. Refused for want of memory alone.
pub fn projected(
    alloc: Global,
    part: Boxed<Pattern>,
    names: &[Text],
) -> Result<Boxed<Pattern>, AllocError>
    requires { ¬ IsIn [] names.now }
    ensures { IfOk result (λ made. made ≡ patterns.Select part (spec.same_names names.now)) }
{
    let renames = same_names(alloc, names)?;
    select(alloc, part, renames)
}

/// The solutions of a pattern in these attributes, where `to` has what the pattern calls `from` (SPARQL 1.1 Query Language,
/// section 18.2). No name is empty. Refused for want of memory alone.
pub fn renamed(
    alloc: Global,
    part: Boxed<Pattern>,
    from: &Text,
    to: &Text,
    names: &[Text],
) -> Result<Boxed<Pattern>, AllocError>
    requires from { from.now ≢ [] }
    requires named { ¬ IsIn [] names.now }
    ensures { IfOk result (λ made. made ≡ patterns.Select part (spec.new_names from.now to.now names.now)) }
{
    let renames = new_names(alloc, from, to, names)?;
    select(alloc, part, renames)
}
