// Texts up to a closing character, their escapes read.
ghost use Rattle.std.specs.Prelude.{◌≡◌, ◌<◌, ◌≤◌, ◌+◌, ◌*◌, ◌++◌, [], ◌∷◌, ℕ, length, chars, string_bytes, IfOk, IsUtf8, true, not, if◌then◌else◌, Some, None};
ghost use Rattle.lanes_dm.specs.ByteSet.{has_byte};
ghost use Rattle.ntriples_reader_dm.specs.Characters.{hex_value, escape_value, is_scalar};
ghost use Rattle.ntriples_reader_dm.specs.Reading.{code_at, only, valued_at, hex_at, number_behind, until_at};
ghost use Rattle.names_dm.specs.Terminals.{is_forbidden};
ghost use Rattle.ntriples_reader_dm.specs.Views.{Gives, special, close_of, one_of, escape_of};

use crate::classes::Kind;
use crate::fault::LineFault;
use crate::text::{begins, behind, first_char, push_char, push_text, until};
use lanes_dm::ByteClass;
use std::alloc::{AllocError, Global};
use value_dm::Text;

// The value of a hexadecimal digit.
fn hex_value(c: char) -> Result<u32, LineFault>
    ensures seen { Gives (λ d. d) result (hex_value c) }
    ensures below { IfOk result (λ d. d < 16) }
{
    match c.to_digit(16) {
        Some(d) => Ok(d),
        None => Err(LineFault::Bad),
    }
}

fn digit(text: &str) -> Result<(u32, &str), LineFault>
    ensures seen { Gives (λ x. (x.0, chars x.1.now)) result (valued_at hex_value (chars text.now)) }
    ensures below { IfOk result (λ x. x.0 < 16) }
    ensures utf8 { IfOk result (λ x. IsUtf8 x.1.now) }
    ensures shorter { IfOk result (λ x. length x.1.now ≤ length text.now) }
{
    match first_char(text) {
        Some((first, rest)) => {
            let value = hex_value(first)?;
            Ok((value, rest))
        }
        None => Err(LineFault::Bad),
    }
}

// Four hexadecimal digits behind those of the number so far.
fn four_digits(so_far: u32, text: &str) -> Result<(u32, &str), LineFault>
    requires { so_far < 65536 }
    ensures seen { Gives (λ x. (x.0, chars x.1.now)) result (hex_at 4 so_far (chars text.now)) }
    ensures below { IfOk result (λ x. x.0 < 65536 * (so_far + 1)) }
    ensures utf8 { IfOk result (λ x. IsUtf8 x.1.now) }
    ensures shorter { IfOk result (λ x. length x.1.now ≤ length text.now) }
{
    let (a, rest) = digit(text)?;
    let (b, rest) = digit(rest)?;
    let (c, rest) = digit(rest)?;
    let (d, rest) = digit(rest)?;
    Ok((16 * (16 * (16 * (16 * so_far + a) + b) + c) + d, rest))
}

fn eight_digits(text: &str) -> Result<(u32, &str), LineFault>
    ensures seen { Gives (λ x. (x.0, chars x.1.now)) result (hex_at 8 0 (chars text.now)) }
    ensures utf8 { IfOk result (λ x. IsUtf8 x.1.now) }
    ensures shorter { IfOk result (λ x. length x.1.now ≤ length text.now) }
{
    let (high, rest) = four_digits(0, text)?;
    four_digits(high, rest)
}

// The character of a code point.
fn scalar(code: u32) -> Result<char, LineFault>
    ensures { Gives (λ c. c) result (if is_scalar code then Some code else None) }
{
    match char::from_u32(code) {
        Some(c) => Ok(c),
        None => Err(LineFault::Bad),
    }
}

// The digits of UCHAR behind its backslash.
fn code(text: &str) -> Result<(u32, &str), LineFault>
    ensures seen { Gives (λ x. (x.0, chars x.1.now)) result (code_at (chars text.now)) }
    ensures utf8 { IfOk result (λ x. IsUtf8 x.1.now) }
    ensures shorter { IfOk result (λ x. length x.1.now ≤ length text.now) }
{
    if begins(text, 'u') {
        let rest = behind(text, 'u')?;
        four_digits(0, rest)
    } else {
        let rest = behind(text, 'U')?;
        eight_digits(rest)
    }
}

// UCHAR behind its backslash.
#[tactic(auto, unfolding(crate::specs::Reading::number_behind))]
fn number(text: &str) -> Result<(char, &str), LineFault>
    ensures seen { Gives (λ x. (x.0, chars x.1.now)) result (number_behind (chars text.now)) }
    ensures utf8 { IfOk result (λ x. IsUtf8 x.1.now) }
    ensures shorter { IfOk result (λ x. length x.1.now ≤ length text.now) }
{
    let (code, rest) = code(text)?;
    let c = scalar(code)?;
    Ok((c, rest))
}

// The character that a letter behind a backslash stands for.
fn escape_value(c: char) -> Result<char, LineFault>
    ensures { Gives (λ c. c) result (escape_value c) }
{
    match c {
        't' => Ok('\t'),
        'b' => Ok('\u{8}'),
        'n' => Ok('\n'),
        'r' => Ok('\r'),
        'f' => Ok('\u{c}'),
        '"' => Ok('"'),
        '\'' => Ok('\''),
        '\\' => Ok('\\'),
        _ => Err(LineFault::Bad),
    }
}

// ECHAR behind its backslash.
fn letter(text: &str) -> Result<(char, &str), LineFault>
    ensures seen { Gives (λ x. (x.0, chars x.1.now)) result (valued_at escape_value (chars text.now)) }
    ensures utf8 { IfOk result (λ x. IsUtf8 x.1.now) }
    ensures shorter { IfOk result (λ x. length x.1.now ≤ length text.now) }
{
    match first_char(text) {
        Some((first, rest)) => {
            let value = escape_value(first)?;
            Ok((value, rest))
        }
        None => Err(LineFault::Bad),
    }
}

fn is_forbidden(c: char) -> bool
    ensures { result ≡ is_forbidden c }
{
    matches!(
        c,
        '\0'..=' ' | '<' | '>' | '"' | '{' | '}' | '|' | '^' | '`' | '\\'
    )
}

// UCHAR in an IRI, behind its backslash.
fn iri_escape(text: &str) -> Result<(char, &str), LineFault>
    ensures seen { Gives (λ x. (x.0, chars x.1.now)) result (only (λ c. not (is_forbidden c)) (number_behind (chars text.now))) }
    ensures utf8 { IfOk result (λ x. IsUtf8 x.1.now) }
    ensures shorter { IfOk result (λ x. length x.1.now ≤ length text.now) }
{
    let (c, rest) = number(text)?;
    if is_forbidden(c) {
        Err(LineFault::Bad)
    } else {
        Ok((c, rest))
    }
}

// An escape behind its backslash.
fn escape(kind: Kind, text: &str) -> Result<(char, &str), LineFault>
    ensures seen { Gives (λ x. (x.0, chars x.1.now)) result (escape_of kind (chars text.now)) }
    ensures utf8 { IfOk result (λ x. IsUtf8 x.1.now) }
    ensures shorter { IfOk result (λ x. length x.1.now ≤ length text.now) }
{
    match kind {
        Kind::Iri => iri_escape(text),
        Kind::Quoted => {
            if begins(text, 'u') || begins(text, 'U') {
                number(text)
            } else {
                letter(text)
            }
        }
    }
}

fn close_of(kind: Kind) -> char
    ensures { result ≡ close_of kind }
{
    match kind {
        Kind::Iri => '>',
        Kind::Quoted => '"',
    }
}

// A text up to its closing character, with its escapes.
fn escaped<'a>(
    alloc: Global,
    kind: Kind,
    class: &ByteClass,
    text: &'a str,
) -> Result<(Text, &'a str), LineFault>
    requires { (x : ℕ) → has_byte class.now x ≡ special kind x }
    ensures seen { Gives (λ x. (x.0, chars x.1.now)) result (until_at (close_of kind) (one_of kind) (chars text.now)) }
    ensures utf8 { IfOk result (λ x. IsUtf8 x.1.now) }
{
    let close = close_of(kind);
    let mut out = String::new(alloc);
    let mut rest = text;
    'inside: while let Some((front, c, behind)) = until(rest, class) {
        push_text(&mut out, front)?;
        if c == close {
            return Ok((Text::from_string(out), behind));
        }
        if c != '\\' {
            return Err(LineFault::Bad);
        }
        let (value, after) = escape(kind, behind)?;
        push_char(&mut out, value)?;
        rest = after;
    }
    Err(LineFault::Bad)
}

/// A text up to its closing character: without escapes one copy of what stands there.
pub(crate) fn inside<'a>(
    alloc: Global,
    kind: Kind,
    class: &ByteClass,
    text: &'a str,
) -> Result<(Text, &'a str), LineFault>
    requires { (x : ℕ) → has_byte class.now x ≡ special kind x }
    ensures seen { Gives (λ x. (x.0, chars x.1.now)) result (until_at (close_of kind) (one_of kind) (chars text.now)) }
    ensures utf8 { IfOk result (λ x. IsUtf8 x.1.now) }
{
    match until(text, class) {
        Some((front, c, rest)) => {
            if c == close_of(kind) {
                Ok((Text::from_str(alloc, front)?, rest))
            } else {
                escaped(alloc, kind, class, text)
            }
        }
        None => Err(LineFault::Bad),
    }
}
