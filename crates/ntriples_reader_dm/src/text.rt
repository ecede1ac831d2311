// The characters of a text, from the front.
ghost use Rattle.std.specs.Prelude.{◌≡◌, ◌<◌, ◌≤◌, ◌+◌, ◌++◌, [], ◌∷◌, ℕ, length, chars, string_bytes, MatchOption, IfSome, IfOk, OnOk, IsUtf8, true, false};
ghost use Rattle.lanes_dm.specs.ByteSet.{has_byte};
ghost use Rattle.ntriples_reader_dm.specs.Reading.{begins, behind, skip};
ghost use Rattle.ntriples_reader_dm.specs.Characters.{is_blank};
ghost use Rattle.ntriples_reader_dm.specs.Views.{Gives, FindsFirst, NoneIn};

use crate::fault::LineFault;
use lanes_dm::{ByteClass, first_of};
use std::alloc::AllocError;

/// The first character, and the text behind it.
#[inline(always)]
pub(crate) fn first_char(text: &str) -> Option<(char, &str)>
    ensures chars { MatchOption result (chars text.now ≡ []) (λ x. chars text.now ≡ x.0 ∷ chars x.1.now) }
    ensures utf8 { IfSome result (λ x. IsUtf8 x.1.now) }
    ensures shorter { IfSome result (λ x. length x.1.now < length text.now) }
{
    let mut characters = text.chars();
    let first = characters.next()?;
    Some((first, characters.as_str()))
}

/// Adds a character.
pub(crate) fn push_char(name: &mut String, character: char) -> Result<(), AllocError>
    ensures { OnOk result (chars (string_bytes name.new) ≡ chars (string_bytes name.old) ++ character ∷ []) }
{
    name.push(character)
}

/// Adds a text.
pub(crate) fn push_text(name: &mut String, text: &str) -> Result<(), AllocError>
    ensures { OnOk result (chars (string_bytes name.new) ≡ chars (string_bytes name.old) ++ chars text.now) }
{
    name.push_str(text)
}

/// Whether the first character is this one.
#[inline(always)]
pub(crate) fn begins(text: &str, c: char) -> bool
    ensures { result ≡ begins c (chars text.now) }
{
    match first_char(text) {
        Some((first, _)) => first == c,
        None => false,
    }
}

/// What stands behind this character.
#[inline(always)]
pub(crate) fn behind(text: &str, c: char) -> Result<&str, LineFault>
    ensures seen { Gives (λ x. chars x.now) result (behind c (chars text.now)) }
    ensures utf8 { IfOk result (λ x. IsUtf8 x.now) }
    ensures shorter { IfOk result (λ x. length x.now < length text.now) }
{
    match first_char(text) {
        Some((first, rest)) => {
            if first == c {
                Ok(rest)
            } else {
                Err(LineFault::Bad)
            }
        }
        None => Err(LineFault::Bad),
    }
}

#[inline(always)]
fn is_blank(c: char) -> bool
    ensures { result ≡ is_blank c }
{
    (c == ' ') | (c == '\t')
}

/// What stands behind the blanks.
#[inline(always)]
#[tactic(auto, unfolding(crate::specs::Reading::skip))]
pub(crate) fn skip(text: &str) -> &str
    ensures seen { chars result.now ≡ skip (chars text.now) }
{
    let mut rest = text;
    'blanks: while let Some((first, behind)) = first_char(rest) {
        if !is_blank(first) {
            return rest;
        }
        rest = behind;
    }
    rest
}

/// The characters before the first one of the class, that one, and the text behind it.
#[inline(always)]
pub(crate) fn until<'a>(text: &'a str, class: &ByteClass) -> Option<(&'a str, char, &'a str)>
    requires { (b : ℕ) → has_byte class.now b ≡ true → b < 128 }
    ensures found { MatchOption result (NoneIn class.now (chars text.now)) (λ x. FindsFirst class.now (chars text.now) (chars x.0.now) x.1 (chars x.2.now)) }
    ensures utf8 { IfSome result (λ x. IsUtf8 x.2.now) }
    ensures shorter { IfSome result (λ x. length x.2.now < length text.now) }
{
    let at = first_of(text.as_bytes(), class)?;
    let (front, rest) = text.split_at(at);
    let (first, behind) = first_char(rest)?;
    Some((front, first, behind))
}
