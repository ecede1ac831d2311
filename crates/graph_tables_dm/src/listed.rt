// Names with the numbers of their terms, in the order of the names.
ghost use Rattle.std.specs.Prelude.{◌≡◌, ◌<◌, ◌^◌, IfOk, IsPermutation, OnOk, length};
ghost use Rattle.std.specs.Option.{option_copied};
ghost use Rattle.members_dm.specs.Membership.{IsRising};
ghost use Rattle.roles_dm.specs.Roles.{role_at};
ghost use Rattle.graph_tables_dm.specs.Listed as spec;
ghost use Rattle.graph_tables_dm.specs.Listed.{IsNotAfter, IsTabled, ListsOnce};

use roles_dm::{LinkName, Role};
use std::alloc::{AllocError, Global};
use value_dm::{Text, TryCopy};

/// The name of a table or of a column, and the number of the term that stands for it.
#[derive(Drop)]
pub struct NumberedName {
    pub name: Text,
    pub number: u32,
}

/// The names in the order of their bytes.
pub fn in_order(names: Vec<NumberedName>) -> Vec<NumberedName>
    ensures same { IsPermutation names.items result.items }
    ensures rising { IsRising IsNotAfter result.items }
{
    let mut names = names;
    names.sort_unstable_by(|left, right| left.name.cmp(&right.name));
    names
}

/// The role of the term of the number; None where there is none.
pub fn role_numbered(roles: &[Role], number: u32) -> Option<&Role>
    ensures { option_copied result ≡ role_at roles.now number }
{
    if number == 0 {
        return None;
    }
    roles.get(number as usize - 1)
}

// The table that the name of a reference or a relation names: a relation's.
fn relation_table_name(name: &LinkName) -> Option<&Text>
    ensures { option_copied result ≡ spec.relation_table_name name.now }
{
    match name {
        LinkName::Reference(_) => None,
        LinkName::Relation(relation) => Some(&relation.table),
    }
}

// The name of the table that a role stands for: that of a class or of a relation.
fn table_name(role: &Role) -> Option<&Text>
    ensures { option_copied result ≡ spec.table_name role.now }
{
    match role {
        Role::Class(name) => Some(name),
        Role::Column(_) => None,
        Role::Link(link) => relation_table_name(&link.name),
        Role::Nothing => None,
    }
}

// The last number of a role, which is how many there are. Refused where it fits no u32, as that of no graph does.
fn last_number(roles: &[Role]) -> Result<u32, AllocError>
    ensures { IfOk result (λ last. last ≡ length roles.now) }
{
    if roles.len() > u32::MAX as usize {
        return Err(AllocError);
    }
    Ok(roles.len() as u32)
}

// Adds the number with the name of its table, if it has one.
fn add_tabled(
    alloc: Global,
    names: &mut Vec<NumberedName>,
    roles: &[Role],
    number: u32,
) -> Result<(), AllocError>
    requires { number < 2 ^ 32 }
    ensures { OnOk result (spec.AddsTabled roles.now number names.old.items names.new.items) }
{
    if let Some(role) = role_numbered(roles, number) {
        if let Some(name) = table_name(role) {
            let name = name.copy(alloc)?;
            names.push(NumberedName { name, number })?;
        }
    }
    Ok(())
}

/// The names of the tables that the roles stand for, with the numbers of their terms, in the order of the names' bytes.
/// Refused for want of memory alone.
pub fn table_names(alloc: Global, roles: &[Role]) -> Result<Vec<NumberedName>, AllocError>
    ensures { IfOk result (λ names. spec.AreInOrder (IsTabled roles.now) names.items) }
{
    let mut names = Vec::new(alloc);
    for before in 0..last_number(roles)? {
        add_tabled(alloc, &mut names, roles, before + 1)?;
    }
    Ok(in_order(names))
}
