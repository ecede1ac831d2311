// The tokens of a text, from left to right.
ghost use Rattle.std.specs.Prelude.{◌≡◌, ◌≤◌, ◌++◌, [], ◌∷◌, ◌==◌, IfOk, IfSome, IsUtf8, List, MatchOption, ℕ, false, length};
ghost use Rattle.grammar_dm.specs.Reading.{starts};
ghost use Rattle.ddl_tokens_dm.specs.Scanning.{quoted_at, run_of};
ghost use Rattle.ddl_tokens_dm.specs.Views.{run_with};
ghost use Rattle.query_tokens_dm.specs.Scanning.{front, quote_front};
ghost use Rattle.query_tokens_dm.specs.Scanning as spec;
ghost use Rattle.query_tokens_dm.specs.Scanning.Front.{QuoteOf, WordOf};
ghost use Rattle.query_tokens_dm.specs.Tokens.{AreOnlyTokens, IsTextOf, begins_word, in_word, is_space};
ghost use Rattle.query_tokens_dm.specs.Views.{IsFound, IsShort, IsShortFront, content_seen, front_seen};

use crate::fits::{fitting, kind_word};
use crate::token::{Placed, Token};
use std::alloc::{AllocError, Global};
use std::str;
use value_dm::{Sequence, Text};

/// What stands at the front of a text: the bytes that it is made of, and those behind it.
#[derive(Drop)]
enum Front<'a> {
    Space(&'a [u8]),
    Opens(&'a [u8]),
    Closes(&'a [u8]),
    /// The bytes of a bare word.
    Word(Vec<u8>, &'a [u8]),
    /// The bytes of what is quoted.
    Quote(Vec<u8>, &'a [u8]),
    /// Nothing that may stand there.
    Bad,
}

/// White space or a token, and the bytes behind it.
#[derive(Drop)]
enum Lexed<'a> {
    Between(&'a [u8]),
    Token(Token, &'a [u8]),
    /// Nothing that may stand there.
    Bad,
}

fn is_space(byte: u8) -> bool
    ensures { result ≡ is_space byte }
{
    byte == b' ' || byte == b'\t' || byte == b'\r' || byte == b'\n'
}

fn begins_word(byte: u8) -> bool
    ensures { result ≡ begins_word byte }
{
    (b'A' <= byte && byte <= b'Z') || (b'a' <= byte && byte <= b'z') || byte == b'_'
}

fn in_word(byte: u8) -> bool
    ensures { result ≡ in_word byte }
{
    begins_word(byte) || (b'0' <= byte && byte <= b'9')
}

// The word that begins with the byte, and what stands behind it.
#[tactic(auto, unfolding(ddl_tokens_dm::specs::Scanning::run_of))]
fn word(alloc: Global, first: u8, text: &[u8]) -> Result<(Vec<u8>, &[u8]), AllocError>
    ensures found { IfOk result (λ x. (x.0.items, x.1.now) ≡ run_with (first ∷ []) (run_of in_word text.now)) }
    ensures shorter { IfOk result (λ x. length x.1.now ≤ length text.now) }
{
    let mut bytes = Vec::new(alloc);
    bytes.push(first)?;
    let mut rest = text;
    'word: while let Some((next, behind)) = rest.split_first() {
        if !in_word(*next) {
            break;
        }
        bytes.push(*next)?;
        rest = behind;
    }
    Ok((bytes, rest))
}

// What stands behind a quote, where the text begins with one.
fn behind_quote(text: &[u8]) -> Option<&[u8]>
    ensures cases { MatchOption result (starts (λ c. c == 34) text.now ≡ false) (λ x. text.now ≡ 34 ∷ x.now) }
    ensures shorter { IfSome result (λ x. length x.now ≤ length text.now) }
{
    match text.split_first() {
        Some((first, behind)) if *first == b'"' => Some(behind),
        _ => None,
    }
}

// The bytes up to the closing quote, and what stands behind it.
#[tactic(auto, unfolding(ddl_tokens_dm::specs::Scanning::quoted_at))]
fn quoted(alloc: Global, text: &[u8]) -> Result<Option<(Vec<u8>, &[u8])>, AllocError>
    ensures found { IfOk result (λ x. content_seen x ≡ quoted_at text.now) }
    ensures shorter { IfOk result (λ x. IfSome x (λ y. length y.1.now ≤ length text.now)) }
{
    let mut bytes = Vec::new(alloc);
    let mut rest = text;
    'quoted: while let Some((first, behind)) = rest.split_first() {
        let mut after = behind;
        if *first == b'"' {
            match behind_quote(behind) {
                Some(second) => after = second,
                None => return Ok(Some((bytes, behind))),
            }
        }
        bytes.push(*first)?;
        rest = after;
    }
    Ok(None)
}

fn word_front(alloc: Global, first: u8, text: &[u8]) -> Result<Front<'_>, AllocError>
    ensures seen { IfOk result (λ x. front_seen x ≡ WordOf (first ∷ (run_of in_word text.now).0) (run_of in_word text.now).1) }
    ensures shorter { IfOk result (λ x. IsShortFront x (length text.now)) }
{
    let (bytes, rest) = word(alloc, first, text)?;
    Ok(Front::Word(bytes, rest))
}

fn quote_front(alloc: Global, text: &[u8]) -> Result<Front<'_>, AllocError>
    ensures seen { IfOk result (λ x. front_seen x ≡ quote_front (quoted_at text.now)) }
    ensures shorter { IfOk result (λ x. IsShortFront x (length text.now)) }
{
    match quoted(alloc, text)? {
        Some((bytes, rest)) => Ok(Front::Quote(bytes, rest)),
        None => Ok(Front::Bad),
    }
}

// What begins with the byte, which the text follows.
#[tactic(auto, unfolding(crate::specs::Scanning::front))]
fn front_of(alloc: Global, first: u8, text: &[u8]) -> Result<Front<'_>, AllocError>
    ensures seen { IfOk result (λ x. front_seen x ≡ front (first ∷ text.now)) }
    ensures shorter { IfOk result (λ x. IsShortFront x (length text.now)) }
{
    if begins_word(first) {
        word_front(alloc, first, text)
    } else if is_space(first) {
        Ok(Front::Space(text))
    } else if first == b'(' {
        Ok(Front::Opens(text))
    } else if first == b')' {
        Ok(Front::Closes(text))
    } else if first == b'"' {
        quote_front(alloc, text)
    } else {
        Ok(Front::Bad)
    }
}

// The text of the bytes, None where they aren't UTF-8.
fn text_of(alloc: Global, bytes: &[u8]) -> Result<Option<Text>, AllocError>
    ensures { IfOk result (λ x. MatchOption x (¬ IsUtf8 bytes.now) (IsTextOf bytes.now)) }
{
    match str::from_utf8(bytes) {
        Ok(text) => Ok(Some(Text::from_str(alloc, text)?)),
        Err(_) => Ok(None),
    }
}

fn word_token(alloc: Global, bytes: Vec<u8>, rest: &[u8]) -> Result<Lexed<'_>, AllocError>
    ensures found { IfOk result (λ x. (ts : List ℕ) → front ts ≡ WordOf bytes.items rest.now → IsFound ts x) }
    ensures shorter { IfOk result (λ x. IsShort x (length rest.now)) }
{
    match text_of(alloc, bytes.as_slice())? {
        Some(name) => Ok(Lexed::Token(Token::Word(name), rest)),
        None => Ok(Lexed::Bad),
    }
}

fn quoted_token(alloc: Global, bytes: Vec<u8>, rest: &[u8]) -> Result<Lexed<'_>, AllocError>
    ensures found { IfOk result (λ x. (ts : List ℕ) → front ts ≡ QuoteOf bytes.items rest.now → IsFound ts x) }
    ensures shorter { IfOk result (λ x. IsShort x (length rest.now)) }
{
    match text_of(alloc, bytes.as_slice())? {
        Some(text) => Ok(Lexed::Token(Token::Quoted(text), rest)),
        None => Ok(Lexed::Bad),
    }
}

// What the bytes at the front make.
fn made(alloc: Global, piece: Front<'_>) -> Result<Lexed<'_>, AllocError>
    ensures found { IfOk result (λ x. (ts : List ℕ) → spec.front ts ≡ front_seen piece.entry → IsFound ts x) }
    ensures shorter { IfOk result (λ x. (n : ℕ) → IsShortFront piece.entry n → IsShort x n) }
{
    match piece {
        Front::Space(rest) => Ok(Lexed::Between(rest)),
        Front::Opens(rest) => Ok(Lexed::Token(Token::Open, rest)),
        Front::Closes(rest) => Ok(Lexed::Token(Token::Close, rest)),
        Front::Word(bytes, rest) => word_token(alloc, bytes, rest),
        Front::Quote(bytes, rest) => quoted_token(alloc, bytes, rest),
        Front::Bad => Ok(Lexed::Bad),
    }
}

// What begins with the byte, which the text follows.
fn lexeme(alloc: Global, first: u8, text: &[u8]) -> Result<Lexed<'_>, AllocError>
    ensures found { IfOk result (λ x. IsFound (first ∷ text.now) x) }
    ensures shorter { IfOk result (λ x. IsShort x (length text.now)) }
{
    let piece = front_of(alloc, first, text)?;
    made(alloc, piece)
}

/// The tokens of a query's text, in order, and the place of the first text that is no token, where there is one: of a quoted
/// text that isn't closed or isn't UTF-8, its start. There are no other tokens of the text. Places count bytes from 1. Refused
/// for want of memory alone.
pub fn tokens(alloc: Global, bytes: &[u8]) -> Result<(Sequence<Placed>, Option<usize>), AllocError>
    ensures { IfOk result (λ x. AreOnlyTokens bytes.now x.0 x.1) }
{
    let mut found = Sequence::new(alloc);
    let mut before = None;
    let mut rest = bytes;
    'tokens: while let Some((first, behind)) = rest.split_first() {
        let place = bytes.len() - rest.len() + 1;
        match lexeme(alloc, *first, behind)? {
            Lexed::Between(after) => rest = after,
            Lexed::Token(token, after) => {
                let value = fitting(alloc, before, &token)?;
                before = kind_word(&token);
                found.push(Placed {
                    token,
                    place,
                    value,
                })?;
                rest = after;
            }
            Lexed::Bad => return Ok((found, Some(place))),
        }
    }
    Ok((found, None))
}
