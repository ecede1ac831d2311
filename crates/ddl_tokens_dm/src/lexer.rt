// The tokens of a text, from left to right.
ghost use Rattle.std.specs.Prelude.{◌≡◌, ◌+◌, ◌-◌, ◌≤◌, [], ◌∷◌, ◌++◌, length, chars, string_bytes, IfOk, MatchOption, IfSome, ◌==◌, false, IsUtf8, Some};
ghost use Rattle.grammar_dm.specs.Reading.{starts};
ghost use Rattle.ddl_tokens_dm.specs.Characters.{is_space, in_line, is_digit, begins_word, in_word};
ghost use Rattle.ddl_tokens_dm.specs.Kinds.{kind_test};
ghost use Rattle.ddl_tokens_dm.specs.Scanning.{run_of, after_close, quoted_at, skipped, identifier, line_comment, comment, sign_at, lexeme};
ghost use Rattle.ddl_tokens_dm.specs.Views.{rest_seen, name_seen, lexeme_seen, IsShort, IsText, is_identifier, run_with};
ghost use Rattle.ddl_tokens_dm.specs.Scanning.Lexeme.{Found};
ghost use Rattle.ddl_tokens_dm.specs.declared.token.Token.TheVariants.{Word};
ghost use Rattle.ddl_tokens_dm.specs.Tokens.{AreTokensOf, unmarked};
ghost use Rattle.ddl_tokens_dm.specs.Answer.{IsLexed};

use crate::text::{Kind, byte_len, first_char, push_char};
use crate::token::{Placed, Sign, Token};
use std::alloc::{AllocError, Global};
use value_dm::{Sequence, Text};

/// What stands at the front of a text.
#[derive(Drop)]
pub(crate) enum Lexed<'a> {
    /// White space or a comment, and the text behind it.
    Between(&'a str),
    /// A token, and the text behind it.
    Token(Token, &'a str),
    /// Nothing that may stand there.
    Bad,
}

fn is_space(c: char) -> bool
    ensures { result ≡ is_space c }
{
    c == ' ' || c == '\t' || c == '\r' || c == '\n' || c == '\u{c}'
}

fn in_line(c: char) -> bool
    ensures { result ≡ in_line c }
{
    !(c == '\n' || c == '\r')
}

fn is_digit(c: char) -> bool
    ensures { result ≡ is_digit c }
{
    '0' <= c && c <= '9'
}

fn begins_word(c: char) -> bool
    ensures { result ≡ begins_word c }
{
    ('A' <= c && c <= 'Z')
        || ('a' <= c && c <= 'z')
        || c == '_'
        || ('\u{80}' <= c && !(c == '\u{feff}'))
}

fn in_word(c: char) -> bool
    ensures { result ≡ in_word c }
{
    begins_word(c) || is_digit(c) || c == '$'
}

fn has_kind(kind: Kind, c: char) -> bool
    ensures { result ≡ kind_test kind c }
{
    match kind {
        Kind::Line => in_line(c),
        Kind::Digit => is_digit(c),
        Kind::Word => in_word(c),
    }
}

#[tactic(auto, unfolding(crate::specs::Scanning::run_of))]
fn skip_run(kind: Kind, text: &str) -> &str
    ensures rest { chars result.now ≡ (run_of (kind_test kind) (chars text.now)).1 }
    ensures utf8 { IsUtf8 result.now }
    ensures shorter { length result.now ≤ length text.now }
{
    let mut rest = text;
    'run: while let Some((first, behind)) = first_char(rest) {
        if !has_kind(kind, first) {
            break;
        }
        rest = behind;
    }
    rest
}

/// The word that begins with `first`, and the text behind it.
#[tactic(auto, unfolding(crate::specs::Scanning::run_of))]
fn word(alloc: Global, first: char, text: &str) -> Result<(Text, &str), AllocError>
    ensures found { IfOk result (λ x. (x.0, chars x.1.now) ≡ run_with (first ∷ []) (run_of in_word (chars text.now))) }
    ensures utf8 { IfOk result (λ x. IsUtf8 x.1.now) }
    ensures shorter { IfOk result (λ x. length x.1.now ≤ length text.now) }
{
    let mut name = String::new(alloc);
    push_char(&mut name, first)?;
    let mut rest = text;
    'word: while let Some((next, behind)) = first_char(rest) {
        if !in_word(next) {
            break;
        }
        push_char(&mut name, next)?;
        rest = behind;
    }
    Ok((Text::from_str(alloc, name.as_str())?, rest))
}

/// The text behind the character, where the text begins with it.
fn strip_char(text: &str, character: char) -> Option<&str>
    ensures cases { MatchOption result (starts (λ c. c == character) (chars text.now) ≡ false) (λ x. chars text.now ≡ character ∷ chars x.now) }
    ensures utf8 { IfSome result (λ x. IsUtf8 x.now) }
    ensures shorter { IfSome result (λ x. length x.now ≤ length text.now) }
{
    match first_char(text) {
        Some((first, behind)) if first == character => Some(behind),
        _ => None,
    }
}

/// The text behind the next end of a comment.
#[tactic(auto, unfolding(crate::specs::Scanning::after_close))]
fn after_close(text: &str) -> Option<&str>
    ensures rest { rest_seen result ≡ after_close (chars text.now) }
    ensures utf8 { IfSome result (λ x. IsUtf8 x.now) }
    ensures shorter { IfSome result (λ x. length x.now ≤ length text.now) }
{
    let mut rest = text;
    'close: while let Some((first, behind)) = first_char(rest) {
        if first == '*' {
            if let Some(after) = strip_char(behind, '/') {
                return Some(after);
            }
        }
        rest = behind;
    }
    None
}

/// The name up to its closing quote, and the text behind that.
#[tactic(auto, unfolding(crate::specs::Scanning::quoted_at))]
fn quoted(alloc: Global, text: &str) -> Result<Option<(Text, &str)>, AllocError>
    ensures found { IfOk result (λ x. name_seen x ≡ quoted_at (chars text.now)) }
    ensures utf8 { IfOk result (λ x. IfSome x (λ y. IsUtf8 y.1.now)) }
    ensures shorter { IfOk result (λ x. IfSome x (λ y. length y.1.now ≤ length text.now)) }
{
    let mut name = String::new(alloc);
    let mut rest = text;
    'quoted: while let Some((first, behind)) = first_char(rest) {
        let mut after = behind;
        if first == '"' {
            match strip_char(behind, '"') {
                Some(second) => after = second,
                None => return Ok(Some((Text::from_str(alloc, name.as_str())?, behind))),
            }
        }
        push_char(&mut name, first)?;
        rest = after;
    }
    Ok(None)
}

/// What the text behind a hyphen makes of it.
fn line_comment(text: &str) -> Lexed<'_>
    ensures seen { lexeme_seen result ≡ line_comment (chars text.now) }
    ensures utf8 { IsText result }
    ensures shorter { IsShort result (length text.now) }
{
    match strip_char(text, '-') {
        Some(line) => Lexed::Between(skip_run(Kind::Line, line)),
        None => Lexed::Bad,
    }
}

/// What the text behind a slash and a star makes of them.
fn comment_inside(text: &str) -> Lexed<'_>
    ensures seen { lexeme_seen result ≡ skipped (after_close (chars text.now)) }
    ensures utf8 { IsText result }
    ensures shorter { IsShort result (length text.now) }
{
    match after_close(text) {
        Some(rest) => Lexed::Between(rest),
        None => Lexed::Bad,
    }
}

/// What the text behind a slash makes of it.
fn comment(text: &str) -> Lexed<'_>
    ensures seen { lexeme_seen result ≡ comment (chars text.now) }
    ensures utf8 { IsText result }
    ensures shorter { IsShort result (length text.now) }
{
    match strip_char(text, '*') {
        Some(inside) => comment_inside(inside),
        None => Lexed::Bad,
    }
}

fn is_identifier(name: &Text) -> bool
    ensures { result ≡ is_identifier name.now }
{
    match first_char(name.as_str()) {
        Some((first, _)) => !(first == '\u{feff}'),
        None => false,
    }
}

#[tactic(auto, using(crate::proofs::Lexing::identifiers))]
fn identifier(name: Text, rest: &str) -> Lexed<'_>
    requires { IsUtf8 rest.now }
    ensures seen { lexeme_seen result ≡ identifier (Some (name, chars rest.now)) }
    ensures utf8 { IsText result }
    ensures shorter { IsShort result (length rest.now) }
{
    if is_identifier(&name) {
        Lexed::Token(Token::Quoted(name), rest)
    } else {
        Lexed::Bad
    }
}

/// What the text behind a quote makes of it.
fn quoted_name(alloc: Global, text: &str) -> Result<Lexed<'_>, AllocError>
    ensures seen { IfOk result (λ x. lexeme_seen x ≡ identifier (quoted_at (chars text.now))) }
    ensures utf8 { IfOk result (λ x. IsText x) }
    ensures shorter { IfOk result (λ x. IsShort x (length text.now)) }
{
    match quoted(alloc, text)? {
        Some((name, rest)) => Ok(identifier(name, rest)),
        None => Ok(Lexed::Bad),
    }
}

#[tactic(auto, unfolding(crate::specs::Scanning::sign_at))]
fn sign(first: char, text: &str) -> Lexed<'_>
    ensures seen { lexeme_seen result ≡ sign_at first (chars text.now) }
    ensures utf8 { IsText result }
    ensures shorter { IsShort result (length text.now) }
{
    if first == '(' {
        Lexed::Token(Token::Sign(Sign::Open), text)
    } else if first == ')' {
        Lexed::Token(Token::Sign(Sign::Close), text)
    } else if first == ',' {
        Lexed::Token(Token::Sign(Sign::Comma), text)
    } else if first == ';' {
        Lexed::Token(Token::Sign(Sign::Semicolon), text)
    } else {
        Lexed::Bad
    }
}

fn bare_word(alloc: Global, first: char, text: &str) -> Result<Lexed<'_>, AllocError>
    ensures seen { IfOk result (λ x. lexeme_seen x ≡ Found (Word (first ∷ (run_of in_word (chars text.now)).0)) (run_of in_word (chars text.now)).1) }
    ensures utf8 { IfOk result (λ x. IsText x) }
    ensures shorter { IfOk result (λ x. IsShort x (length text.now)) }
{
    let (name, rest) = word(alloc, first, text)?;
    Ok(Lexed::Token(Token::Word(name), rest))
}

/// What begins with `first`, which the text follows.
#[tactic(auto, unfolding(crate::specs::Scanning::lexeme))]
fn lexeme(alloc: Global, first: char, text: &str) -> Result<Lexed<'_>, AllocError>
    ensures seen { IfOk result (λ x. lexeme_seen x ≡ lexeme (first ∷ chars text.now)) }
    ensures utf8 { IfOk result (λ x. IsText x) }
    ensures shorter { IfOk result (λ x. IsShort x (length text.now)) }
{
    if begins_word(first) {
        bare_word(alloc, first, text)
    } else if is_digit(first) {
        Ok(Lexed::Token(Token::Number, skip_run(Kind::Digit, text)))
    } else if is_space(first) {
        Ok(Lexed::Between(text))
    } else if first == '"' {
        quoted_name(alloc, text)
    } else if first == '-' {
        Ok(line_comment(text))
    } else if first == '/' {
        Ok(comment(text))
    } else {
        Ok(sign(first, text))
    }
}

/// The tokens of a text with which a file of `total` bytes ends, and the place of the first text that is none.
fn lex(
    alloc: Global,
    total: usize,
    text: &str,
) -> Result<(Sequence<Placed>, Option<usize>), AllocError>
    requires { length text.now ≤ total }
    ensures { IfOk result (λ x. AreTokensOf total (chars text.now) x.0 x.1) }
{
    let mut found = Sequence::new(alloc);
    let mut rest = text;
    'lex: while let Some((first, behind)) = first_char(rest) {
        let place = total - byte_len(rest) + 1;
        match lexeme(alloc, first, behind)? {
            Lexed::Between(after) => rest = after,
            Lexed::Token(token, after) => {
                found.push(Placed { token, place })?;
                rest = after;
            }
            Lexed::Bad => return Ok((found, Some(place))),
        }
    }
    Ok((found, None))
}

/// The text without one byte order mark at its front.
fn unmarked(text: &str) -> &str
    ensures seen { chars result.now ≡ unmarked (chars text.now) }
    ensures shorter { length result.now ≤ length text.now }
{
    match first_char(text) {
        Some((first, behind)) => { if first == '\u{feff}' { behind } else { text } }
        None => text,
    }
}

/// Why a file gave no tokens.
#[derive(Debug, Drop)]
pub enum TokenError {
    /// Memory ran out.
    Memory,
    /// The bytes are not UTF-8. The place, from 1, of the byte behind their longest front that is.
    NotUtf8(usize),
}

impl From<AllocError> for TokenError {
    ghost use Rattle.std.specs.Prelude.{◌≡◌};
    ghost use Rattle.ddl_tokens_dm.specs.declared.lexer.TokenError.TheVariants.{Memory};

    ghost from_gives = { λ _ e. e ≡ Memory };

    fn from(_: AllocError) -> Self {
        TokenError::Memory
    }
}

/// The tokens of a file, in order, and the place of the first text that is no token, where there is one: of an
/// unclosed comment or quoted identifier, or of one that is empty or begins with a byte order mark, its
/// start. Places count bytes from 1, those of a dropped byte order mark included. Refused where the bytes are
/// not UTF-8, and for want of memory.
pub fn tokens(alloc: Global, bytes: &[u8]) -> Result<(Sequence<Placed>, Option<usize>), TokenError>
    ensures { IsLexed bytes.now result }
{
    match str::from_utf8(bytes) {
        Ok(text) => Ok(lex(alloc, bytes.len(), unmarked(text))?),
        Err(fault) => Err(TokenError::NotUtf8(fault.valid_up_to() + 1)),
    }
}
