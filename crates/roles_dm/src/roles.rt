// The roles of a graph's terms.
ghost use Rattle.std.specs.Prelude.{◌≡◌, ◌≤◌, IfOk, List, None, Some, length};
ghost use Rattle.names_dm.specs.Statements.{Statement};
ghost use Rattle.roles_dm.specs.Numbers.{AreDatatypes, AreWords, IsGraphOf};
ghost use Rattle.names_dm.specs.declared.term.Term.{Term as TheTerm};
ghost use Rattle.store_dm.specs.Terms.{term_at};
ghost use Rattle.roles_dm.specs.Relations.{AreRelations};
ghost use Rattle.roles_dm.specs.Roles.{AreRoles, IsRole, TellsClass, TellsColumn};

use crate::columns::{class_of, column_of};
use crate::links::link_of;
use crate::numbers::last_number;
use crate::relations::{Relations, relations_of};
use crate::role::{Role, Roles};
use crate::words::{Datatypes, Words};
use names_dm::Base;
use std::alloc::{AllocError, Global};
use store_dm::Graph;

// The role of the term of the number, which is no class and no column.
fn link_role(
    alloc: Global,
    base: &Base,
    graph: &Graph,
    words: &Words,
    datatypes: &Datatypes,
    relations: &Relations,
    number: u32,
) -> Result<Role, AllocError>
    requires low { 1 ≤ number }
    requires high { number ≤ length graph.now.terms }
    ensures { IfOk result (λ role. (G : List Statement) (x : TheTerm) → IsGraphOf graph.now G → AreWords graph.now words.now → AreDatatypes graph.now datatypes.now → AreRelations base.now graph.now G relations.now
        → term_at graph.now.terms number ≡ Some x → TellsClass base.now G x None → TellsColumn base.now graph.now G x None → IsRole base.now graph.now G x role) }
{
    match link_of(alloc, base, graph, words, datatypes, relations, number)? {
        Some(link) => Ok(Role::Link(link)),
        None => Ok(Role::Nothing),
    }
}

// The role of the term of the number, which is no class.
fn property_role(
    alloc: Global,
    base: &Base,
    graph: &Graph,
    words: &Words,
    datatypes: &Datatypes,
    relations: &Relations,
    number: u32,
) -> Result<Role, AllocError>
    requires low { 1 ≤ number }
    requires high { number ≤ length graph.now.terms }
    ensures { IfOk result (λ role. (G : List Statement) (x : TheTerm) → IsGraphOf graph.now G → AreWords graph.now words.now → AreDatatypes graph.now datatypes.now → AreRelations base.now graph.now G relations.now
        → term_at graph.now.terms number ≡ Some x → TellsClass base.now G x None → IsRole base.now graph.now G x role) }
{
    match column_of(alloc, base, graph, words, datatypes, number)? {
        Some(column) => Ok(Role::Column(column)),
        None => link_role(alloc, base, graph, words, datatypes, relations, number),
    }
}

/// The role of the term of the number. Refused for want of memory alone.
pub fn role_of(
    alloc: Global,
    base: &Base,
    graph: &Graph,
    words: &Words,
    datatypes: &Datatypes,
    relations: &Relations,
    number: u32,
) -> Result<Role, AllocError>
    requires low { 1 ≤ number }
    requires high { number ≤ length graph.now.terms }
    ensures { IfOk result (λ role. (G : List Statement) (x : TheTerm) → IsGraphOf graph.now G → AreWords graph.now words.now → AreDatatypes graph.now datatypes.now → AreRelations base.now graph.now G relations.now
        → term_at graph.now.terms number ≡ Some x → IsRole base.now graph.now G x role) }
{
    match class_of(alloc, base, graph, words, number)? {
        Some(table) => Ok(Role::Class(table)),
        None => property_role(alloc, base, graph, words, datatypes, relations, number),
    }
}

/// What the graph says of each of its terms. Refused for want of memory alone.
pub fn roles_of(
    alloc: Global,
    base: &Base,
    graph: &Graph,
    words: &Words,
    datatypes: &Datatypes,
) -> Result<Roles, AllocError>
    ensures { IfOk result (λ roles. (G : List Statement) → IsGraphOf graph.now G → AreWords graph.now words.now → AreDatatypes graph.now datatypes.now → AreRoles base.now graph.now G roles) }
{
    let relations = relations_of(alloc, base, graph, words)?;
    let mut roles = Roles::new(alloc);
    for before in 0..last_number(graph)? {
        let number = before + 1;
        let role = role_of(alloc, base, graph, words, datatypes, &relations, number)?;
        roles.push(role)?;
    }
    Ok(roles)
}
