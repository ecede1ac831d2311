// The lines of a document.
ghost use Rattle.std.specs.Prelude.{◌≡◌, ◌<◌, ◌≤◌, [], ◌∷◌, ℕ, List, length, All, MatchOption, IfSome, drop};
ghost use Rattle.std.specs.List.{flat_map};
ghost use Rattle.lanes_dm.specs.ByteSet.{has_byte};
ghost use Rattle.ntriples_reader_dm.specs.Lines.{is_end, lines, behind_end};
ghost use Rattle.names_dm.specs.Statements.{Statement};
ghost use Rattle.ntriples_dm.specs.Written.{triple_text};
ghost use Rattle.ntriples_reader_dm.specs.Answer.{IsAnswer, HasOneAnswer, GivesBack};
ghost use Rattle.ntriples_reader_dm.specs.Document.{limit};
ghost use Rattle.ntriples_reader_dm.specs.Lawful.{IsLawful};
ghost use Rattle.ntriples_reader_dm.specs.Views.{AreClasses};

use crate::classes::{Classes, end_class, iri_class, quoted_class};
use crate::fault::{GraphError, LineFault};
use crate::line::line;
use lanes_dm::{ByteClass, first_of};
use names_dm::Triples;
use std::alloc::Global;

// The most triples of a document.
const LIMIT: usize = 16_777_216;

// What stands behind the end of a line at this place.
fn behind_end(bytes: &[u8], place: usize) -> &[u8]
    requires { place < length bytes.now }
    ensures { result.now ≡ behind_end (drop place bytes.now) }
{
    if bytes[place] == b'\r' {
        if let Some(next) = bytes.get(place + 1) {
            if *next == b'\n' {
                return &bytes[place + 2..];
            }
        }
    }
    &bytes[place + 1..]
}

// The first line, and what stands behind its end.
fn first_line<'a>(bytes: &'a [u8], class: &ByteClass) -> Option<(&'a [u8], &'a [u8])>
    requires { (x : ℕ) → has_byte class.now x ≡ is_end x }
    ensures lines { MatchOption result (lines bytes.now ≡ []) (λ x. lines bytes.now ≡ x.0.now ∷ lines x.1.now) }
    ensures shorter { IfSome result (λ x. length x.1.now < length bytes.now) }
{
    if bytes.is_empty() {
        return None;
    }
    match first_of(bytes, class) {
        Some(place) => Some((&bytes[..place], behind_end(bytes, place))),
        None => Some((bytes, &bytes[bytes.len()..])),
    }
}

// The triples of the lines in order.
fn read_lines(alloc: Global, bytes: &[u8]) -> Result<Triples, GraphError>
    ensures { IsAnswer bytes.now result }
{
    let classes = Classes {
        iri: iri_class(),
        quoted: quoted_class(),
    };
    let ends = end_class();
    let mut triples = Triples::new(alloc);
    let mut number = 0;
    let mut rest = bytes;
    'lines: while let Some((text, behind)) = first_line(rest, &ends) {
        number += 1;
        match line(alloc, &classes, text) {
            Ok(None) => {}
            Ok(Some(triple)) => {
                if triples.len() == LIMIT {
                    return Err(GraphError::TooManyTriples);
                }
                triples.push(triple)?;
            }
            Err(LineFault::Bad) => return Err(GraphError::BadLine(number)),
            Err(LineFault::Memory) => return Err(GraphError::Memory),
        }
        rest = behind;
    }
    Ok(triples)
}

/// The triples of a document (RDF 1.1 N-Triples, section 7), in the order of its lines. A line ends at CR LF, at LF, and at a
/// CR that no LF follows; each has a triple, a comment or neither. Repeated triples are kept. There is one right answer:
///
/// - `BadLine` exactly where a line isn't in the grammar, as for bytes that aren't UTF-8, and the lines before the first such
///   line have at most 16,777,216 triples. It is that line's number.
/// - `TooManyTriples` exactly where the lines before the first bad one, or all, have more triples than that.
/// - `Memory` for want of memory.
pub fn read_graph(alloc: Global, bytes: &[u8]) -> Result<Triples, GraphError>
    ensures answer { IsAnswer bytes.now result }
    ensures one { HasOneAnswer bytes.now }
    ensures written { (triples : List Statement) → All IsLawful triples → length triples ≤ limit → bytes.now ≡ flat_map triple_text triples → GivesBack triples result }
{
    read_lines(alloc, bytes)
}
