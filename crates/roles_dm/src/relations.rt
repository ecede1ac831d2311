// Which tables have one relation's IRI alone.
ghost use Rattle.std.specs.Prelude.{◌≡◌, ◌↔◌, ◌≤◌, ◌<◌, ℕ, IfOk, IsTrue, List, OnOk, Some, length, suc};
ghost use Rattle.names_dm.specs.Statements.{Statement};
ghost use Rattle.facts_dm.specs.Meanings.{NamingLaws};
ghost use Rattle.store_dm.specs.Graphs.{GraphValue};
ghost use Rattle.roles_dm.specs.Numbers.{AreWords, IsGraphOf};
ghost use Rattle.roles_dm.specs.Relations.{AreRelations, AreRelationsBelow, IsAlone, IsStated, NotesOneMore, TellsStated};

use crate::naming::relation_named;
use crate::numbers::{has, last_number};
use crate::words::Words;
use facts_dm::naming_laws;
use names_dm::Base;
use std::alloc::{AllocError, Global};
use std::collections::HashMap;
use store_dm::Graph;
use value_dm::Text;

/// For each table whose relations' IRIs are said to be properties, the number of the IRI, and 0 where there are several.
#[derive(Drop)]
pub struct Relations {
    numbers: HashMap<Text, u32>,
}

impl Relations {
    // Whether the number is that of the table's only IRI.
    pub fn is_alone(&self, table: &Text, number: u32) -> bool
        requires { 1 ≤ number }
        ensures { (base : List ℕ) (G : List Statement) (g : GraphValue) → NamingLaws base → AreRelations base g G self.now → IsStated base g G table.now number → IsTrue result ↔ IsAlone base g G table.now number }
    {
        match self.numbers.get(table) {
            Some(only) => *only == number,
            None => false,
        }
    }

    /// Notes the number of one more IRI of the table. Refused for want of memory alone.
    pub fn add(&mut self, table: Text, number: u32) -> Result<(), AllocError>
        ensures { OnOk result (NotesOneMore self.old self.new table number) }
    {
        match self.numbers.get(&table) {
            Some(_) => self.numbers.insert(table, 0)?,
            None => self.numbers.insert(table, number)?,
        };
        Ok(())
    }

    // Notes the number with the table that it is one of, if there is one.
    fn note(&mut self, found: Option<Text>, number: u32) -> Result<(), AllocError>
        requires { 1 ≤ number }
        ensures { OnOk result ((base : List ℕ) (G : List Statement) (g : GraphValue) → NamingLaws base → AreRelationsBelow base g G number self.old → TellsStated base g G number found → AreRelationsBelow base g G (suc number) self.new) }
    {
        match found {
            Some(table) => self.add(table, number),
            None => Ok(()),
        }
    }
}

/// The table of the relation whose IRI has the number, where the graph says that it is a property with nodes.
pub fn stated_relation(
    alloc: Global,
    base: &Base,
    graph: &Graph,
    words: &Words,
    number: u32,
) -> Result<Option<Text>, AllocError>
    requires low { 1 ≤ number }
    requires high { number ≤ length graph.now.terms }
    ensures { IfOk result (λ found. (G : List Statement) → IsGraphOf graph.now G → AreWords graph.now words.now → TellsStated base.now graph.now G number found) }
{
    naming_laws(base);
    if !has(graph, number, words.rdf_type, words.object_property) {
        return Ok(None);
    }
    match relation_named(alloc, base, graph.term_of(number))? {
        Some(name) => Ok(Some(name.table)),
        None => Ok(None),
    }
}

/// The relations whose IRIs the graph says to be properties, by their tables.
pub fn relations_of(
    alloc: Global,
    base: &Base,
    graph: &Graph,
    words: &Words,
) -> Result<Relations, AllocError>
    ensures { IfOk result (λ relations. (G : List Statement) → IsGraphOf graph.now G → AreWords graph.now words.now → AreRelations base.now graph.now G relations) }
{
    naming_laws(base);
    let mut relations = Relations {
        numbers: HashMap::new(alloc),
    };
    for before in 0..last_number(graph)? {
        let number = before + 1;
        let found = stated_relation(alloc, base, graph, words, number)?;
        relations.note(found, number)?;
    }
    Ok(relations)
}
