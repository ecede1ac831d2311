// Lists of renames for lists of names.
ghost use Rattle.std.specs.Prelude.{◌≡◌, ◌≢◌, [], IfOk};
ghost use Rattle.members_dm.specs.Membership.{IsIn};
ghost use Rattle.names_dm.specs.Variables.{variable_of};
ghost use Rattle.keeping_dm.specs.Guards as spec;

use crate::variables::{right_variable, variable_of};
use solutions_dm::{Rename, Renames};
use std::alloc::{AllocError, Global};
use value_dm::{Text, same};

fn rename_to(alloc: Global, from: &Text, to: &Text) -> Result<Rename, AllocError>
    requires from { from.now ≢ [] }
    requires to { to.now ≢ [] }
    ensures { IfOk result (λ rename. rename ≡ spec.rename_to from.now to.now) }
{
    let from = variable_of(alloc, from)?;
    let to = variable_of(alloc, to)?;
    Ok(Rename { from, to })
}

/// Each name to itself.
pub fn same_names(alloc: Global, names: &[Text]) -> Result<Renames, AllocError>
    requires { ¬ IsIn [] names.now }
    ensures { IfOk result (λ made. made ≡ spec.same_names names.now) }
{
    let mut made = Renames::new(alloc);
    for name in names {
        made.push(rename_to(alloc, name, name)?)?;
    }
    Ok(made)
}

// What a name was before `from` became `to`.
fn old_name<'a>(from: &'a Text, to: &Text, name: &'a Text) -> &'a Text
    ensures { result.now ≡ spec.old_name from.now to.now name.now }
{
    if same(to, name) { from } else { name }
}

/// Each of the names from what it was before `from` became `to`.
pub fn new_names(
    alloc: Global,
    from: &Text,
    to: &Text,
    names: &[Text],
) -> Result<Renames, AllocError>
    requires from { from.now ≢ [] }
    requires named { ¬ IsIn [] names.now }
    ensures { IfOk result (λ made. made ≡ spec.new_names from.now to.now names.now) }
{
    let mut made = Renames::new(alloc);
    for name in names {
        made.push(rename_to(alloc, old_name(from, to, name), name)?)?;
    }
    Ok(made)
}

fn rename_to_right(alloc: Global, name: &Text) -> Result<Rename, AllocError>
    requires { name.now ≢ [] }
    ensures { IfOk result (λ rename. rename ≡ record { from = variable_of name.now; to = spec.right_variable name.now }) }
{
    let from = variable_of(alloc, name)?;
    let to = right_variable(alloc, name)?;
    Ok(Rename { from, to })
}

/// Each name to its variable in the right part of a difference.
pub fn right_names(alloc: Global, names: &[Text]) -> Result<Renames, AllocError>
    requires { ¬ IsIn [] names.now }
    ensures { IfOk result (λ made. made ≡ spec.right_names names.now) }
{
    let mut made = Renames::new(alloc);
    for name in names {
        made.push(rename_to_right(alloc, name)?)?;
    }
    Ok(made)
}
