// The characters of a text, from the front.
ghost use Rattle.std.specs.Prelude.{◌≡◌, ◌<◌, ◌≤◌, ◌++◌, [], ◌∷◌, ◌==◌, false, length, chars, encode_utf8_all, string_bytes, MatchOption, IfSome, OnOk, IsUtf8};
ghost use Rattle.grammar_dm.specs.Reading.{starts};

use std::alloc::AllocError;

pub(crate) fn first_char(text: &str) -> Option<(char, &str)>
    ensures chars { MatchOption result (chars text.now ≡ []) (λ x. chars text.now ≡ x.0 ∷ chars x.1.now) }
    ensures utf8 { IfSome result (λ x. IsUtf8 x.1.now) }
    ensures shorter { IfSome result (λ x. length x.1.now < length text.now) }
{
    let mut characters = text.chars();
    let first = characters.next()?;
    Some((first, characters.as_str()))
}

pub(crate) fn byte_len(text: &str) -> usize
    ensures bytes { result ≡ length (encode_utf8_all (chars text.now)) }
    ensures len { result ≡ length text.now }
{
    text.len()
}

pub(crate) fn push_char(name: &mut String, character: char) -> Result<(), AllocError>
    ensures { OnOk result (chars (string_bytes name.new) ≡ chars (string_bytes name.old) ++ character ∷ []) }
{
    name.push(character)
}

/// The text behind the character, where the text begins with it.
pub(crate) fn strip_char(text: &str, character: char) -> Option<&str>
    ensures cases { MatchOption result (starts (λ c. c == character) (chars text.now) ≡ false) (λ x. chars text.now ≡ character ∷ chars x.now) }
    ensures utf8 { IfSome result (λ x. IsUtf8 x.now) }
    ensures shorter { IfSome result (λ x. length x.now ≤ length text.now) }
{
    match first_char(text) {
        Some((first, behind)) if first == character => Some(behind),
        _ => None,
    }
}
