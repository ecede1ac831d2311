ghost use Rattle.std.specs.Prelude.{◌≡◌, ◌↔◌, ◌||◌, ◌&&◌, not, IfSome, IsSome, IsTrue, chars, encode_utf8_all};
ghost use Rattle.names_dm.specs.Characters.{is_ascii_letter};
ghost use Rattle.names_dm.specs.Terminals.{is_letter_or_digit, is_tag};

use crate::characters::{is_ascii_letter, is_letter_or_digit};
use std::alloc::{AllocError, Global};
use std::marker::Model;
use value_dm::{Text, TryCopy};

/// A language tag, as it stands after `@` (RDF 1.1 N-Triples, section 7, LANGTAG). Contracts see its characters, and
/// tags are compared as they are written.
#[derive(PartialEq, Eq, Hash, Drop)]
pub struct Tag {
    text: Text,
}

impl Model for Tag {
    ghost use Rattle.std.specs.Prelude.{List, ℕ, IsTrue};
    ghost use Rattle.names_dm.specs.Terminals.{is_tag};

    ghost Value = { List ℕ };

    ghost view = { λ tag. tag.text };

    ghost invariant = { λ tag. IsTrue (is_tag tag.text) };

    ghost inverse = { λ text. record { text = text } };
}

// Whether the character stands in a tag's first part, or in a further one.
fn in_part(first: bool, c: char) -> bool
    ensures { result ≡ (first && is_ascii_letter c) || (not first && is_letter_or_digit c) }
{
    (first & is_ascii_letter(c)) | (!first & is_letter_or_digit(c))
}

// Whether the text is a tag's.
fn is_tag(text: &Text) -> bool
    ensures { result ≡ is_tag text.now }
{
    let mut good = true;
    let mut first = true;
    let mut empty = true;
    for c in text.as_str().chars() {
        let hyphen = c == '-';
        good &= (hyphen & !empty) | (!hyphen & in_part(first, c));
        first &= !hyphen;
        empty = hyphen;
    }
    good & !empty
}

impl Tag {
    /// The tag of this text, None exactly where LANGTAG has no such tag: letters, and then any number of hyphens, each
    /// with letters or digits after it, all in ASCII.
    pub fn new(text: Text) -> Option<Tag>
        ensures grammar { IsSome result ↔ IsTrue (is_tag text) }
        ensures text { IfSome result (λ tag. tag ≡ text) }
    {
        if is_tag(&text) {
            Some(Tag { text })
        } else {
            None
        }
    }

    /// The tag of a text that is one's, which isn't looked at again.
    pub fn of_grammar(text: Text) -> Tag
        requires { IsTrue (is_tag text) }
        ensures { result ≡ text }
    {
        Tag { text }
    }

    /// The characters.
    pub fn as_str(&self) -> &str
        ensures bytes { result.now ≡ encode_utf8_all self.now }
        ensures chars { chars result.now ≡ self.now }
        ensures grammar { IsTrue (is_tag self.now) }
    {
        self.text.as_str()
    }
}

impl TryCopy for Tag {
    fn copy(&self, alloc: Global) -> Result<Tag, AllocError> {
        Ok(Tag {
            text: self.text.copy(alloc)?,
        })
    }
}
