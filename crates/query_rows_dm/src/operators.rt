// The operators of the algebra on rows of numbers.
ghost use Rattle.std.specs.Prelude.{◌≡◌, ◌≢◌, [], ℕ, List, IfOk, map};
ghost use Rattle.members_dm.specs.Membership.{IsIn, NoRepeats};
ghost use Rattle.names_dm.specs.Variables.{variable_of};
ghost use Rattle.solutions_dm.specs.declared.selects.Rename.{Rename as TheRename};
ghost use Rattle.query_rows_dm.specs.Operators as spec;
ghost use Rattle.query_rows_dm.specs.Operators.{AreKept, AreMoved, AreRenamed, AreSubtracted, AreUnited, IsNullRow};

use crate::dictionary::NULL;
use crate::filters::{with_number, without_number};
use crate::relation::Relation;
use crate::variables::{variable_of, variables_of};
use names_dm::{Var, Vars};
use solutions_dm::{Column, Rename, Renames, Solutions, distinct, minus, select, union};
use std::alloc::{AllocError, Global};
use value_dm::{Names, Sequence, Text, TryCopy, same};

/// The one row that has NULL in its one attribute. Refused for want of memory alone.
pub fn null(alloc: Global, name: &Text) -> Result<Relation, AllocError>
    requires { name.now ≢ [] }
    ensures { IfOk result (λ r. IsNullRow name.now r) }
{
    let var = variable_of(alloc, name)?;
    let mut attributes = Vars::new(alloc);
    attributes.push(var.copy(alloc)?)?;
    let mut numbers = Sequence::new(alloc);
    numbers.push(NULL)?;
    let mut columns = Sequence::new(alloc);
    columns.push(Column { name: var, numbers })?;
    Ok(Relation {
        attributes,
        rows: Solutions::of_columns(columns, 1),
    })
}

/// The rows with the number in the attribute. Refused for want of memory alone.
pub fn equal(alloc: Global, part: Relation, name: &Text, id: u32) -> Result<Relation, AllocError>
    requires { name.now ≢ [] }
    ensures { IfOk result (λ r. AreKept (λ m. m (variable_of name.now) ≡ id) part r) }
{
    let var = variable_of(alloc, name)?;
    Ok(Relation {
        rows: with_number(alloc, &part.rows, &var, id)?,
        attributes: part.attributes,
    })
}

/// The rows with another number in the attribute. Refused for want of memory alone.
pub fn unequal(alloc: Global, part: Relation, name: &Text, id: u32) -> Result<Relation, AllocError>
    requires { name.now ≢ [] }
    ensures { IfOk result (λ r. AreKept (λ m. m (variable_of name.now) ≢ id) part r) }
{
    let var = variable_of(alloc, name)?;
    Ok(Relation {
        rows: without_number(alloc, &part.rows, &var, id)?,
        attributes: part.attributes,
    })
}

/// The rows with a value in the attribute that has another number. Refused for want of memory alone.
pub fn other_value(
    alloc: Global,
    part: Relation,
    name: &Text,
    id: u32,
) -> Result<Relation, AllocError>
    requires { name.now ≢ [] }
    ensures { IfOk result (λ r. AreKept (λ m. (m (variable_of name.now) ≢ 1) × (m (variable_of name.now) ≢ id)) part r) }
{
    let there = unequal(alloc, part, name, NULL)?;
    unequal(alloc, there, name, id)
}

// The renames that keep each of the names.
fn keeping(alloc: Global, names: &[Var]) -> Result<Renames, AllocError>
    ensures { IfOk result (λ made. made ≡ spec.renames (λ x. x) names.now) }
{
    let mut made = Renames::new(alloc);
    for name in names {
        made.push(Rename {
            from: name.copy(alloc)?,
            to: name.copy(alloc)?,
        })?;
    }
    Ok(made)
}

fn new_name(alloc: Global, name: &Var, from: &Var, to: &Var) -> Result<Var, AllocError>
    ensures { IfOk result (λ new. new ≡ spec.renamed from.now to.now name.now) }
{
    if same(name, from) {
        to.copy(alloc)
    } else {
        name.copy(alloc)
    }
}

// The renames that give one of the names a new one.
fn renaming(alloc: Global, names: &[Var], from: &Var, to: &Var) -> Result<Renames, AllocError>
    ensures { IfOk result (λ made. made ≡ spec.renames (spec.renamed from.now to.now) names.now) }
{
    let mut made = Renames::new(alloc);
    for name in names {
        made.push(Rename {
            from: name.copy(alloc)?,
            to: new_name(alloc, name, from, to)?,
        })?;
    }
    Ok(made)
}

// The new names.
fn targets(alloc: Global, renames: &[Rename]) -> Result<Vars, AllocError>
    ensures { IfOk result (λ vars. vars ≡ map (λ (r : TheRename). r.to) renames.now) }
{
    let mut vars = Vars::new(alloc);
    for rename in renames {
        vars.push(rename.to.copy(alloc)?)?;
    }
    Ok(vars)
}

/// The rows with these attributes alone, each once. Refused for want of memory alone.
pub fn projected(alloc: Global, part: &Relation, names: &Names) -> Result<Relation, AllocError>
    requires named { ¬ IsIn [] names.now }
    requires once { NoRepeats names.now }
    ensures { IfOk result (λ r. AreMoved (map variable_of names.now) (λ x. x) part.now r) }
{
    let attributes = variables_of(alloc, names.as_slice())?;
    let renames = keeping(alloc, attributes.as_slice())?;
    let chosen = select(alloc, &part.rows, &renames)?;
    Ok(Relation {
        attributes,
        rows: distinct(alloc, &chosen)?,
    })
}

/// The rows where the first name's attribute has the second name. Refused for want of memory alone.
pub fn renamed(
    alloc: Global,
    part: &Relation,
    from: &Text,
    to: &Text,
) -> Result<Relation, AllocError>
    requires from { from.now ≢ [] }
    requires to { to.now ≢ [] }
    requires once { NoRepeats (map (spec.renamed (variable_of from.now) (variable_of to.now)) part.now.attributes) }
    ensures { IfOk result (λ r. AreRenamed from.now to.now part.now r) }
{
    let old = variable_of(alloc, from)?;
    let new = variable_of(alloc, to)?;
    let renames = renaming(alloc, part.attributes.as_slice(), &old, &new)?;
    Ok(Relation {
        attributes: targets(alloc, renames.as_slice())?,
        rows: select(alloc, &part.rows, &renames)?,
    })
}

/// The rows of both, each once. Refused for want of memory alone.
pub fn united(alloc: Global, left: Relation, right: &Relation) -> Result<Relation, AllocError>
    ensures { IfOk result (λ r. AreUnited left right.now r) }
{
    let all = union(alloc, &left.rows, &right.rows)?;
    Ok(Relation {
        attributes: left.attributes,
        rows: distinct(alloc, &all)?,
    })
}

/// The rows of left with which none of right agrees. Refused for want of memory alone.
pub fn subtracted(alloc: Global, left: Relation, right: &Relation) -> Result<Relation, AllocError>
    ensures { IfOk result (λ r. AreSubtracted left right.now r) }
{
    Ok(Relation {
        rows: minus(alloc, &left.rows, &right.rows)?,
        attributes: left.attributes,
    })
}
