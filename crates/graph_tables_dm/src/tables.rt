// The tables that a graph stands for.
ghost use Rattle.std.specs.Prelude.{◌≢◌, [], ℕ, IfOk, List, map};
ghost use Rattle.names_dm.specs.Statements.{Statement};
ghost use Rattle.layouts_dm.specs.LayoutTables.{StandsFor};
ghost use Rattle.layouts_dm.specs.Outcomes.{Applies, Cause};
ghost use Rattle.roles_dm.specs.Roles.{IsRead};
ghost use Rattle.graph_tables_dm.specs.TableReadings.{AreTables, plain_of};
ghost use Rattle.graph_tables_dm.specs.TableReadings as spec;

use crate::classes::class_table;
use crate::listed::{NumberedName, role_numbered, table_names};
use crate::relations::relation_table;
use crate::table::{GraphTable, GraphTables};
use facts_dm::naming_laws;
use names_dm::Base;
use roles_dm::{LinkName, LinkRole, Role, Words};
use std::alloc::{AllocError, Global};
use store_dm::Graph;

// The table of a relation; None of a reference.
fn link_table(
    alloc: Global,
    graph: &Graph,
    roles: &[Role],
    number: u32,
    link: &LinkRole,
) -> Result<Option<GraphTable>, AllocError>
    ensures { IfOk result (spec.TellsLinkTable graph.now roles.now number link.now) }
{
    match &link.name {
        LinkName::Relation(name) => {
            Ok(Some(relation_table(alloc, graph, roles, number, link, name)?))
        }
        LinkName::Reference(_) => Ok(None),
    }
}

// The table that the role stands for, if it stands for one.
fn role_table(
    alloc: Global,
    graph: &Graph,
    words: &Words,
    roles: &[Role],
    number: u32,
    role: &Role,
) -> Result<Option<GraphTable>, AllocError>
    ensures { IfOk result (spec.TellsRoleTable graph.now words.now roles.now number role.now) }
{
    match role {
        Role::Class(name) => Ok(Some(class_table(alloc, graph, words, roles, number, name)?)),
        Role::Link(link) => link_table(alloc, graph, roles, number, link),
        Role::Column(_) => Ok(None),
        Role::Nothing => Ok(None),
    }
}

// The table that the term of the number stands for, if it stands for one.
fn table_at(
    alloc: Global,
    graph: &Graph,
    words: &Words,
    roles: &[Role],
    number: u32,
) -> Result<Option<GraphTable>, AllocError>
    ensures { IfOk result (spec.TellsTable graph.now words.now roles.now number) }
{
    match role_numbered(roles, number) {
        Some(role) => role_table(alloc, graph, words, roles, number, role),
        None => Ok(None),
    }
}

// The table of each name.
fn tables_named(
    alloc: Global,
    graph: &Graph,
    words: &Words,
    roles: &[Role],
    names: &[NumberedName],
) -> Result<GraphTables, AllocError>
    requires { spec.AreTabled roles.now names.now }
    ensures { IfOk result (spec.AreTablesNamed graph.now words.now roles.now names.now) }
{
    let mut tables = GraphTables::new(alloc);
    for name in names {
        if let Some(table) = table_at(alloc, graph, words, roles, name.number)? {
            tables.push(table)?;
        }
    }
    Ok(tables)
}

/// The tables that the graph stands for, in the order of their names' bytes. Refused for want of memory alone.
///
/// The graph is one without a cause to refuse it: each triple is explained by the layout that the graph describes (its
/// classes with their columns, its nodes and references), no node has two values in a column or two classes, and no pair
/// of a relation lacks a value.
pub fn tables_of(
    alloc: Global,
    base: &Base,
    graph: &Graph,
    words: &Words,
    roles: &[Role],
) -> Result<GraphTables, AllocError>
    ensures { IfOk result (λ made. (G : List Statement) → IsRead base.now graph.now words.now roles.now G → G ≢ []
        → ((i : ℕ) (cause : Cause) → ¬ Applies base.now G i cause) → StandsFor base.now G (map plain_of made)) }
{
    naming_laws(base);
    let names = table_names(alloc, roles)?;
    tables_named(alloc, graph, words, roles, names.as_slice())
}
