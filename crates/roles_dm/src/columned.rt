// Which classes have a column.
ghost use Rattle.std.specs.Prelude.{◌≡◌, ◌↔◌, IfOk, IsTrue, OnOk, ℕ};
ghost use Rattle.roles_dm.specs.Columned.{AreColumned, HasColumned, IsClassOf, NotesClass};

use crate::role::Role;
use std::alloc::{AllocError, Global};
use std::collections::HashSet;

/// The numbers of the classes that have a column.
#[derive(Drop)]
pub struct Columned {
    classes: HashSet<u32>,
}

impl Columned {
    /// Whether the class of the number has a column.
    pub fn has(&self, number: u32) -> bool
        ensures { IsTrue result ↔ HasColumned self.now number }
    {
        self.classes.contains(&number)
    }

    // Notes the class of a column.
    fn note(&mut self, role: &Role) -> Result<(), AllocError>
        ensures { OnOk result (NotesClass self.old self.new role.now) }
    {
        match role {
            Role::Column(column) => {
                self.classes.insert(column.class)?;
                Ok(())
            }
            Role::Class(_) => Ok(()),
            Role::Link(_) => Ok(()),
            Role::Nothing => Ok(()),
        }
    }
}

/// The classes that have a column by these roles. Refused for want of memory alone.
pub fn columned_of(alloc: Global, roles: &[Role]) -> Result<Columned, AllocError>
    ensures { IfOk result (AreColumned roles.now) }
{
    let mut columned = Columned {
        classes: HashSet::new(alloc),
    };
    for role in roles {
        columned.note(role)?;
    }
    Ok(columned)
}
