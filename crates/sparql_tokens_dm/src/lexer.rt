// The tokens of a text, from left to right.
ghost use Rattle.std.specs.Prelude.{◌≡◌, ◌≤◌, ◌∷◌, chars, length, IfOk, IsUtf8, Some};
ghost use Rattle.ntriples_reader_dm.specs.Reading.{iri_at, longest_literal};
ghost use Rattle.names_dm.specs.Characters.{is_ascii_letter};
ghost use Rattle.names_dm.specs.Terminals.{is_variable_character};
ghost use Rattle.ddl_tokens_dm.specs.Scanning.{run_of};
ghost use Rattle.sparql_tokens_dm.specs.Characters.{is_space};
ghost use Rattle.sparql_tokens_dm.specs.Scanning as spec;
ghost use Rattle.sparql_tokens_dm.specs.Scanning.{iri_lexeme, keyword_named, literal_lexeme, sign_lexeme, twice, variable_lexeme, word_lexeme};
ghost use Rattle.sparql_tokens_dm.specs.Tokens.{AreOnlyTokens, AreTokensOf};
ghost use Rattle.sparql_tokens_dm.specs.Views.{IsText, IsTextFront, lexeme_seen};

use crate::text::{byte_len, first_char, strip_char};
use crate::token::{Placed, Sign, Token};
use crate::words::{Run, is_letter, keyword_named, longest_run};
use names_dm::Var;
use ntriples_reader_dm::{iri_in_front, literal_in_front};
use std::alloc::{AllocError, Global};
use std::str;
use value_dm::Sequence;

/// What stands at the front of a text.
#[derive(Drop)]
pub(crate) enum Lexed<'a> {
    /// White space, and the text behind it.
    Between(&'a str),
    /// A token, and the text behind it.
    Token(Token, &'a str),
    /// Nothing that may stand there.
    Bad,
}

fn is_space(c: char) -> bool
    ensures { result ≡ is_space c }
{
    c == ' ' || c == '\t' || c == '\r' || c == '\n'
}

// A mark of two equal characters, of which the text follows the first.
fn doubled(text: &str, character: char, sign: Sign) -> Lexed<'_>
    ensures seen { lexeme_seen result ≡ twice character (spec.Lexeme.Found (Token.Sign sign) (spec.behind_first (chars text.now))) (chars text.now) }
    ensures utf8 { IsText result }
{
    match strip_char(text, character) {
        Some(behind) => Lexed::Token(Token::Sign(sign), behind),
        None => Lexed::Bad,
    }
}

// The mark that begins with `first`, which the text follows.
#[tactic(auto, unfolding(crate::specs::Scanning::sign_lexeme))]
fn sign(first: char, text: &str) -> Lexed<'_>
    ensures seen { lexeme_seen result ≡ sign_lexeme first (chars text.now) }
    ensures utf8 { IsText result }
{
    if first == '{' {
        Lexed::Token(Token::Sign(Sign::OpenBrace), text)
    } else if first == '}' {
        Lexed::Token(Token::Sign(Sign::CloseBrace), text)
    } else if first == '(' {
        Lexed::Token(Token::Sign(Sign::OpenParenthesis), text)
    } else if first == ')' {
        Lexed::Token(Token::Sign(Sign::CloseParenthesis), text)
    } else if first == '.' {
        Lexed::Token(Token::Sign(Sign::Dot), text)
    } else if first == ',' {
        Lexed::Token(Token::Sign(Sign::Comma), text)
    } else if first == '!' {
        Lexed::Token(Token::Sign(Sign::Not), text)
    } else if first == '&' {
        doubled(text, '&', Sign::And)
    } else if first == '|' {
        doubled(text, '|', Sign::Or)
    } else {
        Lexed::Bad
    }
}

// The key word at the front.
fn word(alloc: Global, text: &str) -> Result<Lexed<'_>, AllocError>
    ensures seen { IfOk result (λ x. lexeme_seen x ≡ word_lexeme (keyword_named (run_of is_ascii_letter (chars text.now)).0) (run_of is_ascii_letter (chars text.now)).1) }
    ensures utf8 { IfOk result (λ x. IsText x) }
{
    let (name, rest) = longest_run(alloc, Run::Letters, text)?;
    match keyword_named(&name) {
        Some(found) => Ok(Lexed::Token(Token::Word(found), rest)),
        None => Ok(Lexed::Bad),
    }
}

// The variable whose name is at the front.
fn variable(alloc: Global, text: &str) -> Result<Lexed<'_>, AllocError>
    ensures seen { IfOk result (λ x. lexeme_seen x ≡ variable_lexeme (run_of is_variable_character (chars text.now)).0 (run_of is_variable_character (chars text.now)).1) }
    ensures utf8 { IfOk result (λ x. IsText x) }
{
    let (name, rest) = longest_run(alloc, Run::Name, text)?;
    match Var::new(name) {
        Some(name) => Ok(Lexed::Token(Token::Var(name), rest)),
        None => Ok(Lexed::Bad),
    }
}

fn iri(alloc: Global, text: &str) -> Result<Lexed<'_>, AllocError>
    ensures seen { IfOk result (λ x. lexeme_seen x ≡ iri_lexeme (iri_at (chars text.now))) }
    ensures utf8 { IfOk result (λ x. IsText x) }
{
    match iri_in_front(alloc, text)? {
        Some((iri, rest)) => Ok(Lexed::Token(Token::Iri(iri), rest)),
        None => Ok(Lexed::Bad),
    }
}

fn literal(alloc: Global, text: &str) -> Result<Lexed<'_>, AllocError>
    ensures seen { IfOk result (λ x. lexeme_seen x ≡ literal_lexeme (longest_literal (chars text.now))) }
    ensures utf8 { IfOk result (λ x. IsText x) }
{
    match literal_in_front(alloc, text)? {
        Some((literal, rest)) => Ok(Lexed::Token(Token::Literal(literal), rest)),
        None => Ok(Lexed::Bad),
    }
}

// What stands at the front of a text that begins with `first`, which `behind` follows.
#[tactic(auto, unfolding(crate::specs::Scanning::lexeme))]
fn lexeme<'a>(
    alloc: Global,
    text: &'a str,
    first: char,
    behind: &'a str,
) -> Result<Lexed<'a>, AllocError>
    requires { chars text.now ≡ first ∷ chars behind.now }
    ensures seen { IfOk result (λ x. lexeme_seen x ≡ spec.lexeme (first ∷ chars behind.now)) }
    ensures utf8 { IfOk result (λ x. IsText x) }
{
    if is_letter(first) {
        word(alloc, text)
    } else if is_space(first) {
        Ok(Lexed::Between(behind))
    } else if first == '?' {
        variable(alloc, behind)
    } else if first == '<' {
        iri(alloc, text)
    } else if first == '"' {
        literal(alloc, text)
    } else {
        Ok(sign(first, behind))
    }
}

// The tokens of a text, and the place of the first text that is none.
fn lex(alloc: Global, text: &str) -> Result<(Sequence<Placed>, Option<usize>), AllocError>
    ensures { IfOk result (λ x. AreTokensOf (length text.now) (chars text.now) x.0 x.1) }
{
    let mut found = Sequence::new(alloc);
    let mut rest = text;
    'lex: while let Some((first, behind)) = first_char(rest) {
        let place = byte_len(text) - byte_len(rest) + 1;
        match lexeme(alloc, rest, first, behind)? {
            Lexed::Between(after) => rest = after,
            Lexed::Token(token, after) => {
                found.push(Placed { token, place })?;
                rest = after;
            }
            Lexed::Bad => return Ok((found, Some(place))),
        }
    }
    Ok((found, None))
}

// The longest front that is UTF-8.
fn text_front(bytes: &[u8]) -> &str
    ensures { IsTextFront bytes.now result.now }
{
    match str::from_utf8(bytes) {
        Ok(text) => text,
        Err(fault) => str::from_utf8(&bytes[..fault.valid_up_to()]).unwrap_or(""),
    }
}

/// The tokens of a query in SPARQL, in order, and the place of the first text that is no token, where there is one: of an IRI or
/// a literal that is not closed or not in its grammar, its start; of bytes that aren't UTF-8, the first of them. There are no
/// other tokens of the bytes. Places count bytes from 1. Refused for want of memory alone.
///
/// A key word is a longest run of ASCII letters, and its case counts; a variable is `?` and a longest run of ASCII letters,
/// digits and `_`. IRIs and literals are those of RDF 1.1 N-Triples, section 7. White space is space, tab, CR and LF.
pub fn tokens(alloc: Global, bytes: &[u8]) -> Result<(Sequence<Placed>, Option<usize>), AllocError>
    ensures { IfOk result (λ x. AreOnlyTokens bytes.now x.0 x.1) }
{
    let text = text_front(bytes);
    let (found, stop) = lex(alloc, text)?;
    if text.len() == bytes.len() {
        Ok((found, stop))
    } else {
        Ok((found, Some(stop.unwrap_or(text.len() + 1))))
    }
}
