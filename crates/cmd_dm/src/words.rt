ghost use Rattle.std.specs.Prelude.{◌≡◌, ◌<◌, ◌≤◌, ◌↔◌, Some, None, IfOk, IfErr, IsErrOf, chars, length, map, slice_index, string_bytes};
ghost use Rattle.cmd_dm.specs.Words.{append_of, ask_of, check_of, command_of, consistent_of, graph_command, graph_words, invert_of, mode_of, nulls_of, rows_of, show_of, sparql_of, clean_of, translate_of, bench_of, number_of};
ghost use Rattle.cmd_dm.specs.declared.command.Command.TheVariants.{Ask};
ghost use Rattle.cmd_dm.specs.declared.words.WordError.TheVariants.{Memory, Usage};

use crate::command::Command;
use algebra_dm::Mode;
use graphs_dm::GraphName;
use std::alloc::{AllocError, Global};
use std::convert::From;
use thiserror::Error;
use value_dm::{NullMode, Text};

/// The most persons of the benchmark's database.
const MOST_PERSONS: u32 = 50_000;

/// Why words gave no command.
#[derive(Debug, Clone, Copy, PartialEq, Eq, Drop, Error)]
pub enum WordError {
    /// The words are no command.
    #[error("no command has these words")]
    Usage,

    /// Want of memory.
    #[error("out of memory")]
    Memory,
}

impl From<AllocError> for WordError {
    ghost from_gives = { λ _ error. error ≡ Memory };

    fn from(_refused: AllocError) -> WordError {
        WordError::Memory
    }
}

/// The text of a word.
fn text_of(alloc: Global, word: &String) -> Result<Text, WordError>
    ensures ok { IfOk result (λ text. text ≡ chars (string_bytes word.now)) }
    ensures err { IfErr result (λ error. error ≡ Memory) }
{
    Ok(Text::from_str(alloc, word.as_str())?)
}

/// The mode that the words behind a folder stand for.
fn read_nulls(words: &[String]) -> Result<NullMode, WordError>
    ensures ok { IfOk result (λ nulls. nulls_of (map string_bytes words.now) ≡ Some nulls) }
    ensures err { IfErr result (λ error. (error ≡ Usage) × (nulls_of (map string_bytes words.now) ≡ None)) }
{
    match words {
        [] => Ok(NullMode::Plain),
        [word] => {
            if word.as_str() == "empty-null" {
                Ok(NullMode::EmptyNull)
            } else {
                Err(WordError::Usage)
            }
        }
        _ => Err(WordError::Usage),
    }
}

/// The command that writes the graph of this name.
fn graph_command(name: GraphName, base: Text, folder: Text, nulls: NullMode) -> Command
    ensures { result ≡ graph_command name base folder nulls }
{
    match name {
        GraphName::Direct => Command::Direct {
            base,
            folder,
            nulls,
        },
        GraphName::Map => Command::Map {
            base,
            folder,
            nulls,
        },
        GraphName::MapKeys => Command::MapKeys {
            base,
            folder,
            nulls,
        },
    }
}

/// The words behind the word for the graph of this name.
fn read_graph_words(alloc: Global, name: GraphName, words: &[String]) -> Result<Command, WordError>
    ensures ok { IfOk result (λ command. graph_words name (map string_bytes words.now) ≡ Some command) }
    ensures usage { IsErrOf result WordError.Usage ↔ (graph_words name (map string_bytes words.now) ≡ None) }
{
    match words {
        [base, folder, last @ ..] => {
            let nulls = read_nulls(last)?;
            let base = text_of(alloc, base)?;
            let folder = text_of(alloc, folder)?;
            Ok(graph_command(name, base, folder, nulls))
        }
        _ => Err(WordError::Usage),
    }
}

/// The words behind `check`.
fn read_check(alloc: Global, words: &[String]) -> Result<Command, WordError>
    ensures ok { IfOk result (λ command. check_of (map string_bytes words.now) ≡ Some command) }
    ensures usage { IsErrOf result WordError.Usage ↔ (check_of (map string_bytes words.now) ≡ None) }
{
    match words {
        [folder, last @ ..] => {
            let nulls = read_nulls(last)?;
            Ok(Command::Check {
                folder: text_of(alloc, folder)?,
                nulls,
            })
        }
        _ => Err(WordError::Usage),
    }
}

/// The words behind `clean`.
fn read_clean(alloc: Global, words: &[String]) -> Result<Command, WordError>
    ensures ok { IfOk result (λ command. clean_of (map string_bytes words.now) ≡ Some command) }
    ensures usage { IsErrOf result WordError.Usage ↔ (clean_of (map string_bytes words.now) ≡ None) }
{
    match words {
        [folder, out, last @ ..] => {
            let nulls = read_nulls(last)?;
            let folder = text_of(alloc, folder)?;
            let out = text_of(alloc, out)?;
            Ok(Command::Clean { folder, out, nulls })
        }
        _ => Err(WordError::Usage),
    }
}

/// The words behind `append`.
fn read_append(alloc: Global, words: &[String]) -> Result<Command, WordError>
    ensures ok { IfOk result (λ command. append_of (map string_bytes words.now) ≡ Some command) }
    ensures usage { IsErrOf result WordError.Usage ↔ (append_of (map string_bytes words.now) ≡ None) }
{
    match words {
        [base, folder, more, last @ ..] => {
            let nulls = read_nulls(last)?;
            let base = text_of(alloc, base)?;
            let folder = text_of(alloc, folder)?;
            let more = text_of(alloc, more)?;
            Ok(Command::Append {
                base,
                folder,
                more,
                nulls,
            })
        }
        _ => Err(WordError::Usage),
    }
}

/// The words behind `invert`.
fn read_invert(alloc: Global, words: &[String]) -> Result<Command, WordError>
    ensures ok { IfOk result (λ command. invert_of (map string_bytes words.now) ≡ Some command) }
    ensures usage { IsErrOf result WordError.Usage ↔ (invert_of (map string_bytes words.now) ≡ None) }
{
    match words {
        [base, graph, out] => {
            let base = text_of(alloc, base)?;
            let graph = text_of(alloc, graph)?;
            let out = text_of(alloc, out)?;
            Ok(Command::Invert { base, graph, out })
        }
        _ => Err(WordError::Usage),
    }
}

/// The words behind `rows`.
fn read_rows_words(alloc: Global, words: &[String]) -> Result<Command, WordError>
    ensures ok { IfOk result (λ command. rows_of (map string_bytes words.now) ≡ Some command) }
    ensures usage { IsErrOf result WordError.Usage ↔ (rows_of (map string_bytes words.now) ≡ None) }
{
    match words {
        [folder, query, last @ ..] => {
            let nulls = read_nulls(last)?;
            let folder = text_of(alloc, folder)?;
            let query = text_of(alloc, query)?;
            Ok(Command::Rows {
                folder,
                query,
                nulls,
            })
        }
        _ => Err(WordError::Usage),
    }
}

/// The mode of a word.
fn read_mode(word: &String) -> Result<Mode, WordError>
    ensures ok { IfOk result (λ mode. mode_of (string_bytes word.now) ≡ Some mode) }
    ensures err { IfErr result (λ error. (error ≡ Usage) × (mode_of (string_bytes word.now) ≡ None)) }
{
    if word.as_str() == "map" {
        Ok(Mode::Map)
    } else if word.as_str() == "map-keys" {
        Ok(Mode::MapKeys)
    } else {
        Err(WordError::Usage)
    }
}

/// The words behind `translate`.
fn read_translate(alloc: Global, words: &[String]) -> Result<Command, WordError>
    ensures ok { IfOk result (λ command. translate_of (map string_bytes words.now) ≡ Some command) }
    ensures usage { IsErrOf result WordError.Usage ↔ (translate_of (map string_bytes words.now) ≡ None) }
{
    match words {
        [word, base, folder, query] => {
            let mode = read_mode(word)?;
            let base = text_of(alloc, base)?;
            let folder = text_of(alloc, folder)?;
            let query = text_of(alloc, query)?;
            Ok(Command::Translate {
                mode,
                base,
                folder,
                query,
            })
        }
        _ => Err(WordError::Usage),
    }
}

/// The command that asks of these words.
fn ask_command(
    alloc: Global,
    mode: Mode,
    base: &String,
    folder: &String,
    graph: &String,
    query: &String,
) -> Result<Command, WordError>
    ensures ok { IfOk result (λ command. command ≡
        Ask mode (chars (string_bytes base.now)) (chars (string_bytes folder.now)) (chars (string_bytes graph.now)) (chars (string_bytes query.now))) }
    ensures err { IfErr result (λ error. error ≡ Memory) }
{
    let base = text_of(alloc, base)?;
    let folder = text_of(alloc, folder)?;
    let graph = text_of(alloc, graph)?;
    let query = text_of(alloc, query)?;
    Ok(Command::Ask {
        mode,
        base,
        folder,
        graph,
        query,
    })
}

/// The words behind `ask`.
fn read_ask(alloc: Global, words: &[String]) -> Result<Command, WordError>
    ensures ok { IfOk result (λ command. ask_of (map string_bytes words.now) ≡ Some command) }
    ensures usage { IsErrOf result WordError.Usage ↔ (ask_of (map string_bytes words.now) ≡ None) }
{
    match words {
        [word, base, folder, graph, query] => {
            let mode = read_mode(word)?;
            ask_command(alloc, mode, base, folder, graph, query)
        }
        _ => Err(WordError::Usage),
    }
}

/// The words behind `show`.
fn read_show(alloc: Global, words: &[String]) -> Result<Command, WordError>
    ensures ok { IfOk result (λ command. show_of (map string_bytes words.now) ≡ Some command) }
    ensures usage { IsErrOf result WordError.Usage ↔ (show_of (map string_bytes words.now) ≡ None) }
{
    match words {
        [graph] => Ok(Command::Show {
            graph: text_of(alloc, graph)?,
        }),
        _ => Err(WordError::Usage),
    }
}

/// The words behind `sparql`.
fn read_sparql_words(alloc: Global, words: &[String]) -> Result<Command, WordError>
    ensures ok { IfOk result (λ command. sparql_of (map string_bytes words.now) ≡ Some command) }
    ensures usage { IsErrOf result WordError.Usage ↔ (sparql_of (map string_bytes words.now) ≡ None) }
{
    match words {
        [graph, pattern] => {
            let graph = text_of(alloc, graph)?;
            let pattern = text_of(alloc, pattern)?;
            Ok(Command::Sparql { graph, pattern })
        }
        _ => Err(WordError::Usage),
    }
}

/// The words behind `consistent`.
fn read_consistent(alloc: Global, words: &[String]) -> Result<Command, WordError>
    ensures ok { IfOk result (λ command. consistent_of (map string_bytes words.now) ≡ Some command) }
    ensures usage { IsErrOf result WordError.Usage ↔ (consistent_of (map string_bytes words.now) ≡ None) }
{
    match words {
        [graph] => Ok(Command::Consistent {
            graph: text_of(alloc, graph)?,
        }),
        _ => Err(WordError::Usage),
    }
}

/// The number of digits, where it is at most 50,000.
fn parsed(word: &str) -> Option<u32>
    requires some { 0 < length word.now }
    requires digit { 49 ≤ slice_index word.now 0 }
    ensures { result ≡ number_of word.now }
{
    match word.parse::<u32>() {
        Ok(number) => {
            if number <= MOST_PERSONS {
                Some(number)
            } else {
                None
            }
        }
        Err(_) => None,
    }
}

/// The number from 1 to 50,000 that the word is in decimal digits, without a leading zero.
fn read_number(word: &str) -> Option<u32>
    ensures { result ≡ number_of word.now }
{
    let bytes = word.as_bytes();
    if bytes.is_empty() {
        return None;
    }
    if bytes[0] < b'1' {
        return None;
    }
    parsed(word)
}

/// The words behind `bench`.
fn read_bench(words: &[String]) -> Result<Command, WordError>
    ensures ok { IfOk result (λ command. bench_of (map string_bytes words.now) ≡ Some command) }
    ensures usage { IsErrOf result WordError.Usage ↔ (bench_of (map string_bytes words.now) ≡ None) }
{
    match words {
        [word] => match read_number(word.as_str()) {
            Some(n) => Ok(Command::Bench { n }),
            None => Err(WordError::Usage),
        },
        _ => Err(WordError::Usage),
    }
}

/// The command that the words stand for, which don't include the program's name. `Usage` exactly where they stand
/// for none.
pub fn read_words(alloc: Global, words: &[String]) -> Result<Command, WordError>
    ensures ok { IfOk result (λ command. command_of (map string_bytes words.now) ≡ Some command) }
    ensures usage { IsErrOf result WordError.Usage ↔ (command_of (map string_bytes words.now) ≡ None) }
{
    match words {
        [] => Err(WordError::Usage),
        [name, rest @ ..] => {
            if name.as_str() == "direct" {
                read_graph_words(alloc, GraphName::Direct, rest)
            } else if name.as_str() == "map" {
                read_graph_words(alloc, GraphName::Map, rest)
            } else if name.as_str() == "map-keys" {
                read_graph_words(alloc, GraphName::MapKeys, rest)
            } else if name.as_str() == "check" {
                read_check(alloc, rest)
            } else if name.as_str() == "clean" {
                read_clean(alloc, rest)
            } else if name.as_str() == "append" {
                read_append(alloc, rest)
            } else if name.as_str() == "invert" {
                read_invert(alloc, rest)
            } else if name.as_str() == "rows" {
                read_rows_words(alloc, rest)
            } else if name.as_str() == "translate" {
                read_translate(alloc, rest)
            } else if name.as_str() == "ask" {
                read_ask(alloc, rest)
            } else if name.as_str() == "sparql" {
                read_sparql_words(alloc, rest)
            } else if name.as_str() == "show" {
                read_show(alloc, rest)
            } else if name.as_str() == "consistent" {
                read_consistent(alloc, rest)
            } else if name.as_str() == "bench" {
                read_bench(rest)
            } else {
                Err(WordError::Usage)
            }
        }
    }
}
