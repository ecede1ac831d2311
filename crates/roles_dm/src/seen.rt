// What earlier triples of a graph said, and what was looked up for them.
ghost use Rattle.std.specs.Prelude.{◌≡◌, ◌↔◌, ◌≤◌, IfOk, IsTrue, List, None, OnOk, Some, ℕ, length};
ghost use Rattle.store_dm.specs.Graphs.{GraphValue};
ghost use Rattle.schema_dm.specs.Naming.{Name};
ghost use Rattle.roles_dm.specs.Roles.{role_at};
ghost use Rattle.roles_dm.specs.Seen.{AreValued, Counts, HasCounted, NotesObject, column_kind, first_object};
ghost use Rattle.roles_dm.specs.declared.role.Role.{Role as TheRole};
ghost use Rattle.roles_dm.specs.declared.role.Role.TheVariants.{Class};

use crate::canonical::is_canonical;
use crate::numbered::Numbered;
use crate::numbers::role_numbered;
use crate::role::Role;
use std::alloc::{AllocError, Global};
use std::collections::{HashMap, HashSet};
use store_dm::Graph;
use value_dm::Kind;

/// The object of each subject and predicate that was noted first.
#[derive(Drop)]
pub struct Firsts {
    objects: HashMap<(u32, u32), u32>,
}

impl Firsts {
    /// No objects. Takes no memory.
    pub fn new(alloc: Global) -> Firsts
        ensures { (s p : ℕ) → first_object result s p ≡ None }
    {
        Firsts {
            objects: HashMap::new(alloc),
        }
    }

    /// Notes the object where it is the first of its subject and predicate, and tells whether the first one is the same.
    /// Refused for want of memory alone.
    pub fn agrees(&mut self, numbers: Numbered) -> Result<bool, AllocError>
        ensures { IfOk result (NotesObject self.old self.new numbers) }
    {
        let key = (numbers.subject, numbers.predicate);
        match self.objects.get(&key) {
            Some(first) => Ok(*first == numbers.object),
            None => {
                self.objects.insert(key, numbers.object)?;
                Ok(true)
            }
        }
    }
}

// The kind of a column.
fn column_kind(role: &Role) -> Option<Kind>
    ensures { result ≡ column_kind role.now }
{
    match role {
        Role::Column(column) => Some(column.kind),
        Role::Class(_) => None,
        Role::Link(_) => None,
        Role::Nothing => None,
    }
}

// Whether the role of the number is a class.
fn is_class(roles: &[Role], number: u32) -> bool
    ensures { IsTrue result ↔ ((t : Name) × (role_at roles.now number ≡ Some (Class t))) }
{
    let Some(role) = role_numbered(roles, number) else {
        return false;
    };
    match role {
        Role::Class(_) => true,
        Role::Column(_) => false,
        Role::Link(_) => false,
        Role::Nothing => false,
    }
}

// Whether the object is what the property gives: of a column a literal of its kind in the canonical form, of any other
// property a class.
fn counts(
    alloc: Global,
    graph: &Graph,
    roles: &[Role],
    property: u32,
    object: u32,
) -> Result<bool, AllocError>
    requires low { 1 ≤ object }
    requires high { object ≤ length graph.now.terms }
    ensures { IfOk result (λ told. IsTrue told ↔ Counts graph.now roles.now property object) }
{
    let Some(role) = role_numbered(roles, property) else {
        return Ok(false);
    };
    match column_kind(role) {
        Some(kind) => is_canonical(alloc, kind, graph.term_of(object)),
        None => Ok(is_class(roles, object)),
    }
}

// Whether the property gives the subject such an object.
fn has_counted(
    alloc: Global,
    graph: &Graph,
    roles: &[Role],
    subject: u32,
    property: u32,
) -> Result<bool, AllocError>
    ensures { IfOk result (λ told. IsTrue told ↔ HasCounted graph.now roles.now subject property) }
{
    let _count = graph.len();
    if subject == 0 || property == 0 {
        return Ok(false);
    }
    for (_, _, object) in graph.find(subject, property, 0) {
        let told = counts(alloc, graph, roles, property, object)?;
        if told {
            return Ok(true);
        }
    }
    Ok(false)
}

/// Subjects and properties that were looked up, so that no subject's objects are gone through twice.
#[derive(Drop)]
pub struct Valued {
    pairs: HashSet<(u32, u32)>,
}

impl Valued {
    /// Nothing looked up. Takes no memory.
    pub fn new(alloc: Global) -> Valued
        ensures { (g : GraphValue) (roles : List TheRole) → AreValued g roles result }
    {
        Valued {
            pairs: HashSet::new(alloc),
        }
    }

    // Notes what was looked up.
    fn note(&mut self, subject: u32, property: u32) -> Result<(), AllocError>
        ensures { OnOk result ((g : GraphValue) (roles : List TheRole) → AreValued g roles self.old → HasCounted g roles subject property → AreValued g roles self.new) }
    {
        self.pairs.insert((subject, property))?;
        Ok(())
    }

    /// Whether the property gives the subject an explained value, or a class. Refused for want of memory alone.
    pub fn has(
        &mut self,
        alloc: Global,
        graph: &Graph,
        roles: &[Role],
        subject: u32,
        property: u32,
    ) -> Result<bool, AllocError>
        ensures { IfOk result (λ told. AreValued graph.now roles.now self.old → (IsTrue told ↔ HasCounted graph.now roles.now subject property) × AreValued graph.now roles.now self.new) }
    {
        if self.pairs.contains(&(subject, property)) {
            return Ok(true);
        }
        let told = has_counted(alloc, graph, roles, subject, property)?;
        if !told {
            return Ok(false);
        }
        self.note(subject, property)?;
        Ok(true)
    }
}
