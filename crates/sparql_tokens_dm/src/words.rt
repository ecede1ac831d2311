// Runs of characters, and the key words.
ghost use Rattle.std.specs.Prelude.{◌≡◌, ◌≤◌, chars, length, IfOk, IsUtf8};
ghost use Rattle.names_dm.specs.Characters.{is_ascii_letter};
ghost use Rattle.names_dm.specs.Terminals.{is_variable_character};
ghost use Rattle.ddl_tokens_dm.specs.Scanning.{run_of};
ghost use Rattle.sparql_tokens_dm.specs.Scanning.{keyword_named, run_test};

use crate::text::{first_char, push_char};
use crate::token::Keyword;
use std::alloc::{AllocError, Global};
use value_dm::Text;

/// A kind of characters of which there may be a run.
#[derive(Clone, Copy, Debug, Drop)]
pub(crate) enum Run {
    Letters,
    Name,
}

pub(crate) fn is_letter(c: char) -> bool
    ensures { result ≡ is_ascii_letter c }
{
    matches!(c, 'A'..='Z' | 'a'..='z')
}

fn in_name(c: char) -> bool
    ensures { result ≡ is_variable_character c }
{
    matches!(c, 'A'..='Z' | 'a'..='z' | '0'..='9') || (c == '_')
}

fn belongs(run: Run, c: char) -> bool
    ensures { result ≡ run_test run c }
{
    match run {
        Run::Letters => is_letter(c),
        Run::Name => in_name(c),
    }
}

/// The longest run at the front of the text, and the text behind it.
#[tactic(auto, unfolding(ddl_tokens_dm::specs::Scanning::run_of))]
pub(crate) fn longest_run(alloc: Global, kind: Run, text: &str) -> Result<(Text, &str), AllocError>
    ensures found { IfOk result (λ x. (x.0, chars x.1.now) ≡ run_of (run_test kind) (chars text.now)) }
    ensures utf8 { IfOk result (λ x. IsUtf8 x.1.now) }
    ensures shorter { IfOk result (λ x. length x.1.now ≤ length text.now) }
{
    let mut name = String::new(alloc);
    let mut rest = text;
    'run: while let Some((next, behind)) = first_char(rest) {
        if !belongs(kind, next) {
            break;
        }
        push_char(&mut name, next)?;
        rest = behind;
    }
    Ok((Text::from_string(name), rest))
}

/// The key word of this spelling.
#[tactic(auto, unfolding(crate::specs::Scanning::keyword_named))]
pub(crate) fn keyword_named(name: &Text) -> Option<Keyword>
    ensures { result ≡ keyword_named name.now }
{
    let word = name.as_str();
    if word == "SELECT" {
        Some(Keyword::Select)
    } else if word == "DISTINCT" {
        Some(Keyword::Distinct)
    } else if word == "WHERE" {
        Some(Keyword::Where)
    } else if word == "AS" {
        Some(Keyword::As)
    } else if word == "UNION" {
        Some(Keyword::Union)
    } else if word == "MINUS" {
        Some(Keyword::Minus)
    } else if word == "OPTIONAL" {
        Some(Keyword::Optional)
    } else if word == "FILTER" {
        Some(Keyword::Filter)
    } else if word == "true" {
        Some(Keyword::True)
    } else if word == "bound" {
        Some(Keyword::Bound)
    } else if word == "sameTerm" {
        Some(Keyword::SameTerm)
    } else {
        None
    }
}
