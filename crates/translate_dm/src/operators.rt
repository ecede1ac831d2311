// What the operators make of the patterns of their parts.
ghost use Rattle.std.specs.Prelude.{◌≡◌, ◌≢◌, ◌↔◌, [], false, IfOk, IsTrue};
ghost use Rattle.members_dm.specs.Membership.{IsIn};
ghost use Rattle.value_dm.specs.Lawful.{IsLawful};
ghost use Rattle.algebra_dm.specs.Attributes.{HasAttribute, Lists};
ghost use Rattle.algebra_dm.specs.Nodes.{IsWellFormed};
ghost use Rattle.pattern_dm.specs.declared.pattern.Pattern.TheVariants as patterns;
ghost use Rattle.keeping_dm.specs.Guards as guards;
ghost use Rattle.translate_dm.specs.Steps.{IsGuarded, IsJoined, IsProjected, IsReady, IsRenamed};
ghost use Rattle.translate_dm.specs.Translation.{AreAllCertain, IsDifference};

use crate::context::{Context, known};
use algebra_dm::{Query, lacks_some, rising, shared};
use pattern_dm::Pattern;
use pattern_parts_dm as parts;
use pattern_parts_dm::{filter, is_bound, is_other_value, is_unbound, is_value};
use sqlite_items::Boxed;
use std::alloc::{AllocError, Global};
use value_dm::{Names, Text, TryCopy, Value};

// ---- selections

/// The tuples whose attribute has this value, which obeys the rules of its type.
pub fn equal(
    alloc: Global,
    part: Boxed<Pattern>,
    name: &Text,
    value: &Value,
) -> Result<Boxed<Pattern>, AllocError>
    requires { name.now ≢ [] }
    ensures { IfOk result (λ made. (made ≡ patterns.Filter part (guards.is_value name.now value.now)) × IsLawful value.now) }
{
    let condition = is_value(alloc, name, value)?;
    filter(alloc, part, condition)
}

/// The tuples whose attribute has another value. The value obeys the rules of its type.
pub fn unequal(
    alloc: Global,
    part: Boxed<Pattern>,
    name: &Text,
    value: &Value,
) -> Result<Boxed<Pattern>, AllocError>
    requires { name.now ≢ [] }
    ensures { IfOk result (λ made. (made ≡ patterns.Filter part (guards.is_other_value name.now value.now)) × IsLawful value.now) }
{
    let condition = is_other_value(alloc, name, value)?;
    filter(alloc, part, condition)
}

/// The tuples whose attribute is NULL.
pub fn with_null(
    alloc: Global,
    part: Boxed<Pattern>,
    name: &Text,
) -> Result<Boxed<Pattern>, AllocError>
    requires { name.now ≢ [] }
    ensures { IfOk result (λ made. made ≡ patterns.Filter part (guards.is_unbound name.now)) }
{
    let condition = is_unbound(alloc, name)?;
    filter(alloc, part, condition)
}

/// The tuples whose attribute has a value.
pub fn without_null(
    alloc: Global,
    part: Boxed<Pattern>,
    name: &Text,
) -> Result<Boxed<Pattern>, AllocError>
    requires { name.now ≢ [] }
    ensures { IfOk result (λ made. made ≡ patterns.Filter part (guards.is_bound name.now)) }
{
    let condition = is_bound(alloc, name)?;
    filter(alloc, part, condition)
}

// ---- projections and renamings

/// The attributes of these names alone.
pub fn projected(
    alloc: Global,
    part: Boxed<Pattern>,
    names: &Names,
) -> Result<Boxed<Pattern>, AllocError>
    requires { ¬ IsIn [] names.now }
    ensures { IfOk result (IsProjected names.now part) }
{
    let sorted = rising(names.copy(alloc)?.into_vec());
    parts::projected(alloc, part, sorted.as_slice())
}

/// The attribute `from` of the part under the name `to`. The query is the renaming itself.
pub fn renamed(
    context: &Context,
    query: &Query,
    part: Boxed<Pattern>,
    from: &Text,
    to: &Text,
) -> Result<Boxed<Pattern>, AllocError>
    requires ready { IsReady context.now.mode context.now.base.now context.now.schema.now context.now.names.now context.now.class.now }
    requires formed { IsWellFormed context.now.schema.now query.now }
    requires from { from.now ≢ [] }
    ensures { IfOk result (IsRenamed context.now.schema.now query.now from.now to.now part) }
{
    let known = known(context, query)?;
    let names = known.attributes.as_slice();
    parts::renamed(context.alloc, part, from, to, names)
}

// ---- joins

// The attributes that both parts have.
fn common_names(context: &Context, left: &Query, right: &Query) -> Result<Names, AllocError>
    requires ready { IsReady context.now.mode context.now.base.now context.now.schema.now context.now.names.now context.now.class.now }
    requires left { IsWellFormed context.now.schema.now left.now }
    requires right { IsWellFormed context.now.schema.now right.now }
    ensures { IfOk result (Lists (λ a. HasAttribute context.now.schema.now left.now a × HasAttribute context.now.schema.now right.now a)) }
{
    let left = known(context, left)?;
    let right = known(context, right)?;
    shared(context.alloc, &left.attributes, &right.attributes)
}

/// The natural join of two parts. The queries are the parts, whose patterns are these.
pub fn joined(
    context: &Context,
    left_query: &Query,
    right_query: &Query,
    left: Boxed<Pattern>,
    right: Boxed<Pattern>,
) -> Result<Boxed<Pattern>, AllocError>
    requires ready { IsReady context.now.mode context.now.base.now context.now.schema.now context.now.names.now context.now.class.now }
    requires left { IsWellFormed context.now.schema.now left_query.now }
    requires right { IsWellFormed context.now.schema.now right_query.now }
    ensures { IfOk result (IsJoined context.now.schema.now left_query.now right_query.now left right) }
{
    let common = common_names(context, left_query, right_query)?;
    parts::joined(context.alloc, common.as_slice(), left, right)
}

// ---- differences

fn neither(first: bool, second: bool) -> bool
    ensures { IsTrue result ↔ ((first ≡ false) × (second ≡ false)) }
{
    !first & !second
}

// Whether no attribute of the parts may be NULL.
fn are_all_certain(context: &Context, left: &Query, right: &Query) -> Result<bool, AllocError>
    requires ready { IsReady context.now.mode context.now.base.now context.now.schema.now context.now.names.now context.now.class.now }
    requires left { IsWellFormed context.now.schema.now left.now }
    requires right { IsWellFormed context.now.schema.now right.now }
    ensures { IfOk result (λ told. IsTrue told ↔ AreAllCertain context.now.mode context.now.schema.now left.now right.now) }
{
    let left = known(context, left)?;
    let right = known(context, right)?;
    let in_left = lacks_some(context.alloc, &left.attributes, &left.certain)?;
    let in_right = lacks_some(context.alloc, &left.attributes, &right.certain)?;
    Ok(neither(in_left, in_right))
}

// The difference where an attribute may be NULL. The query is the left part.
fn guarded(
    context: &Context,
    query: &Query,
    left: Boxed<Pattern>,
    right: Boxed<Pattern>,
) -> Result<Boxed<Pattern>, AllocError>
    requires ready { IsReady context.now.mode context.now.base.now context.now.schema.now context.now.names.now context.now.class.now }
    requires formed { IsWellFormed context.now.schema.now query.now }
    ensures { IfOk result (IsGuarded context.now.schema.now query.now context.now.class.now left right) }
{
    let known = known(context, query)?;
    let names = known.attributes.as_slice();
    parts::guarded(context.alloc, names, context.class, left, right)
}

/// The difference of two parts. The queries are the parts, whose patterns are these.
pub fn subtracted(
    context: &Context,
    left_query: &Query,
    right_query: &Query,
    left: Boxed<Pattern>,
    right: Boxed<Pattern>,
) -> Result<Boxed<Pattern>, AllocError>
    requires ready { IsReady context.now.mode context.now.base.now context.now.schema.now context.now.names.now context.now.class.now }
    requires left { IsWellFormed context.now.schema.now left_query.now }
    requires right { IsWellFormed context.now.schema.now right_query.now }
    ensures { IfOk result (IsDifference context.now.mode context.now.base.now context.now.schema.now left_query.now right_query.now left right) }
{
    let are_certain = are_all_certain(context, left_query, right_query)?;
    if are_certain {
        return parts::minus(context.alloc, left, right);
    }
    guarded(context, left_query, left, right)
}
