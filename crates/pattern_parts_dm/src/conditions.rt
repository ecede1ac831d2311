// Conditions on attributes. A condition that is a part of another stands in a box.
ghost use Rattle.std.specs.Prelude.{◌≡◌, ◌≢◌, [], IfOk};
ghost use Rattle.members_dm.specs.Membership.{IsIn};
ghost use Rattle.value_dm.specs.Lawful.{IsLawful};
ghost use Rattle.pattern_dm.specs.declared.pattern.Condition.TheVariants as conditions;
ghost use Rattle.keeping_dm.specs.Guards as spec;

use crate::variables::{literal_of, variable_of};
use pattern_dm::{Condition, Operand};
use sqlite_items::Boxed;
use std::alloc::{AllocError, Global};
use value_dm::{Text, Value};

/// A condition in a box.
pub type Part = Boxed<Condition>;

/// The condition is false.
pub fn not(alloc: Global, part: Part) -> Result<Part, AllocError>
    ensures { IfOk result (λ made. made ≡ conditions.Not part) }
{
    Boxed::new(alloc, Condition::Not(part))
}

/// Both conditions hold.
pub fn and(alloc: Global, left: Part, right: Part) -> Result<Part, AllocError>
    ensures { IfOk result (λ made. made ≡ conditions.And left right) }
{
    Boxed::new(alloc, Condition::And(left, right))
}

/// One of the conditions holds.
pub fn or(alloc: Global, left: Part, right: Part) -> Result<Part, AllocError>
    ensures { IfOk result (λ made. made ≡ conditions.Or left right) }
{
    Boxed::new(alloc, Condition::Or(left, right))
}

/// The attribute has a value (SPARQL 1.1 Query Language, section 17.4.1.1). Its name is not empty. Refused for want of
/// memory alone.
pub fn is_bound(alloc: Global, name: &Text) -> Result<Condition, AllocError>
    requires { name.now ≢ [] }
    ensures { IfOk result (λ made. made ≡ spec.is_bound name.now) }
{
    let var = variable_of(alloc, name)?;
    Ok(Condition::Bound(var))
}

/// The attribute has a value.
pub fn bound(alloc: Global, name: &Text) -> Result<Part, AllocError>
    requires { name.now ≢ [] }
    ensures { IfOk result (λ made. made ≡ spec.is_bound name.now) }
{
    let var = variable_of(alloc, name)?;
    Boxed::new(alloc, Condition::Bound(var))
}

/// The attribute has NULL: its variable is not bound (SPARQL 1.1 Query Language, section 17.4.1.1). Its name is not empty.
/// Refused for want of memory alone.
pub fn is_unbound(alloc: Global, name: &Text) -> Result<Condition, AllocError>
    requires { name.now ≢ [] }
    ensures { IfOk result (λ made. made ≡ spec.is_unbound name.now) }
{
    let part = bound(alloc, name)?;
    Ok(Condition::Not(part))
}

/// The attribute has this value, by its natural literal (SPARQL 1.1 Query Language, section 17.4.1.8), and the value obeys
/// the rules of its type. The name is not empty. Refused for want of memory alone.
pub fn is_value(alloc: Global, name: &Text, value: &Value) -> Result<Condition, AllocError>
    requires { name.now ≢ [] }
    ensures made { IfOk result (λ made. made ≡ spec.is_value name.now value.now) }
    ensures lawful { IfOk result (λ _. IsLawful value.now) }
{
    let var = variable_of(alloc, name)?;
    let literal = literal_of(alloc, value)?;
    Ok(Condition::SameTerm(Operand::Var(var), Operand::Literal(literal)))
}

// The attribute has this value.
fn same_value(alloc: Global, name: &Text, value: &Value) -> Result<Part, AllocError>
    requires { name.now ≢ [] }
    ensures made { IfOk result (λ made. made ≡ spec.is_value name.now value.now) }
    ensures lawful { IfOk result (λ _. IsLawful value.now) }
{
    let condition = is_value(alloc, name, value)?;
    Boxed::new(alloc, condition)
}

/// The attribute has another value (SPARQL 1.1 Query Language, section 17.4.1.8), and the value obeys the rules of its
/// type. With NULL in the attribute this is an error, as in SPARQL. The name is not empty. Refused for want of memory alone.
pub fn is_other_value(alloc: Global, name: &Text, value: &Value) -> Result<Condition, AllocError>
    requires { name.now ≢ [] }
    ensures made { IfOk result (λ made. made ≡ spec.is_other_value name.now value.now) }
    ensures lawful { IfOk result (λ _. IsLawful value.now) }
{
    let same = same_value(alloc, name, value)?;
    Ok(Condition::Not(same))
}

/// The condition holds, and each of the attributes has a value.
pub fn and_bound(alloc: Global, condition: Part, names: &[Text]) -> Result<Part, AllocError>
    requires { ¬ IsIn [] names.now }
    ensures { IfOk result (λ made. made ≡ spec.and_bound condition names.now) }
{
    let mut all = condition;
    for name in names {
        let bound = bound(alloc, name)?;
        all = and(alloc, all, bound)?;
    }
    Ok(all)
}
