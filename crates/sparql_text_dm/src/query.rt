ghost use Rattle.std.specs.Prelude.{◌≡◌, IfOk};
ghost use Rattle.sparql_text_dm.specs.Answer.{HasOneAnswer, HasSomeAnswer, IsAnswer, IsFormed};
ghost use Rattle.sparql_text_dm.specs.Written.{AcceptsSpellings, TextsReadBack};

use crate::answer::read_text;
use crate::error::SparqlError;
use crate::parsed::Parsed;
use std::alloc::Global;

/// Reads a header and a pattern from their text in SPARQL (SPARQL 1.1 Query Language, section 19.8), in the fragment in which
/// patterns are written: `SELECT DISTINCT`, one variable at least, `WHERE` and a pattern. A pattern stands in braces, and is
/// empty, a triple with its dot, `SELECT`, targets, `WHERE` and a pattern, or a pattern and one of: a pattern, `UNION` and a
/// pattern, `MINUS` and a pattern, `OPTIONAL` and a pattern in braces, with or without a filter, or a filter. A filter is `FILTER`
/// and a condition in parentheses, which behind `OPTIONAL` is not `true`. A target is a variable, or `(?a AS ?b)` with two
/// variables; the new names of one list of targets differ. IRIs and literals are those of RDF 1.1 N-Triples, section 7. The case of
/// key words counts, and space, tab, CR and LF stand freely between tokens.
///
/// - `TooNested` names an opening brace or parenthesis inside 2,048 open ones.
/// - `BadPattern` names the first text that is no token, or the first token with which the tokens so far begin no query; or the
///   byte behind the end, where the query isn't whole. Whichever of all these stands first in the text is told, and at one place
///   `TooNested`.
/// - `Memory` for want of memory.
///
/// Places count bytes from 1. There is one right answer. The header that is read isn't empty, and the pattern is well-formed.
///
/// A text is accepted exactly where its tokens are those of the text of such a header and pattern, with no more than 2,048
/// braces and parentheses open at once, and they are the answer. So what `pattern_dm::sparql_text` writes of them is read back.
pub fn read_sparql(alloc: Global, bytes: &[u8]) -> Result<Parsed, SparqlError>
    ensures answer { IsAnswer bytes.now result }
    ensures formed { IfOk result IsFormed }
    ensures one { HasOneAnswer bytes.now }
    ensures some { HasSomeAnswer bytes.now }
    ensures accepted { AcceptsSpellings bytes.now }
    ensures back { TextsReadBack }
{
    read_text(alloc, bytes)
}
