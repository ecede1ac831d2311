// The numbers of the words that graphs are written with.
ghost use Rattle.std.specs.Prelude.{◌≡◌, IfOk};
ghost use Rattle.facts_dm.specs.Facts.{word_term};
ghost use Rattle.roles_dm.specs.Numbers.{AreDatatypes, AreWords, IsNumberOf, TellsKind};

use crate::numbers::number_of;
use facts_dm::Word;
use names_dm::Term;
use std::alloc::{AllocError, Global};
use store_dm::Graph;
use value_dm::Kind;

/// The numbers of words in a graph, 0 for one that no triple holds.
#[derive(Clone, Copy)]
pub struct Words {
    pub rdf_type: u32,
    pub domain: u32,
    pub range: u32,
    pub class: u32,
    pub datatype_property: u32,
    pub object_property: u32,
    pub different_from: u32,
}

fn word_number(alloc: Global, graph: &Graph, word: Word) -> Result<u32, AllocError>
    ensures { IfOk result (λ number. IsNumberOf graph.now (word_term word) number) }
{
    let term = Term::Iri(word.iri(alloc)?);
    Ok(number_of(graph, &term))
}

/// The numbers of the words in the graph.
pub fn words_of(alloc: Global, graph: &Graph) -> Result<Words, AllocError>
    ensures { IfOk result (λ words. AreWords graph.now words) }
{
    Ok(Words {
        rdf_type: word_number(alloc, graph, Word::RdfType)?,
        domain: word_number(alloc, graph, Word::RdfsDomain)?,
        range: word_number(alloc, graph, Word::RdfsRange)?,
        class: word_number(alloc, graph, Word::OwlClass)?,
        datatype_property: word_number(alloc, graph, Word::OwlDatatypeProperty)?,
        object_property: word_number(alloc, graph, Word::OwlObjectProperty)?,
        different_from: word_number(alloc, graph, Word::OwlDifferentFrom)?,
    })
}

/// The numbers of the datatypes of the kinds in a graph, 0 for one that no triple holds.
#[derive(Clone, Copy)]
pub struct Datatypes {
    pub text: u32,
    pub integer: u32,
    pub decimal: u32,
    pub boolean: u32,
    pub date: u32,
    pub time: u32,
    pub date_time: u32,
    pub binary: u32,
}

/// The numbers of the datatypes in the graph.
pub fn datatypes_of(alloc: Global, graph: &Graph) -> Result<Datatypes, AllocError>
    ensures { IfOk result (λ datatypes. AreDatatypes graph.now datatypes) }
{
    Ok(Datatypes {
        text: word_number(alloc, graph, Word::Datatype(Kind::Text))?,
        integer: word_number(alloc, graph, Word::Datatype(Kind::Integer))?,
        decimal: word_number(alloc, graph, Word::Datatype(Kind::Decimal))?,
        boolean: word_number(alloc, graph, Word::Datatype(Kind::Boolean))?,
        date: word_number(alloc, graph, Word::Datatype(Kind::Date))?,
        time: word_number(alloc, graph, Word::Datatype(Kind::Time))?,
        date_time: word_number(alloc, graph, Word::Datatype(Kind::DateTime))?,
        binary: word_number(alloc, graph, Word::Datatype(Kind::Binary))?,
    })
}

/// The kind whose datatype has the number; None where there is none.
pub fn kind_numbered(datatypes: &Datatypes, number: u32) -> Option<Kind>
    ensures { TellsKind datatypes.now number result }
{
    if number == datatypes.text {
        Some(Kind::Text)
    } else if number == datatypes.integer {
        Some(Kind::Integer)
    } else if number == datatypes.decimal {
        Some(Kind::Decimal)
    } else if number == datatypes.boolean {
        Some(Kind::Boolean)
    } else if number == datatypes.date {
        Some(Kind::Date)
    } else if number == datatypes.time {
        Some(Kind::Time)
    } else if number == datatypes.date_time {
        Some(Kind::DateTime)
    } else if number == datatypes.binary {
        Some(Kind::Binary)
    } else {
        None
    }
}
