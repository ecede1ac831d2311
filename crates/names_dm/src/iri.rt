ghost use Rattle.std.specs.Prelude.{◌≡◌, ◌↔◌, IfSome, IsSome, IsTrue, chars, encode_utf8_all};
ghost use Rattle.names_dm.specs.Terminals.{is_forbidden, is_iri};

use crate::characters::between;
use std::alloc::{AllocError, Global};
use std::marker::Model;
use value_dm::{Text, TryCopy};

/// An IRI: a text with no character that IRIREF forbids (RDF 1.1 N-Triples, section 7). Contracts see its characters.
#[derive(PartialEq, Eq, Hash, Drop)]
pub struct Iri {
    text: Text,
}

impl Model for Iri {
    ghost use Rattle.std.specs.Prelude.{List, ℕ, IsTrue};
    ghost use Rattle.names_dm.specs.Terminals.{is_iri};

    ghost Value = { List ℕ };

    ghost view = { λ iri. iri.text };

    ghost invariant = { λ iri. IsTrue (is_iri iri.text) };

    ghost inverse = { λ text. record { text = text } };
}

// Whether an IRI cannot hold the character.
fn is_forbidden(c: char) -> bool
    ensures { result ≡ is_forbidden c }
{
    between('\0', ' ', c)
        | (c == '<')
        | (c == '>')
        | (c == '"')
        | (c == '{')
        | (c == '}')
        | (c == '|')
        | (c == '^')
        | (c == '`')
        | (c == '\\')
}

/// Whether the text is an IRI's.
pub fn is_iri(text: &Text) -> bool
    ensures { result ≡ is_iri text.now }
{
    let mut bad = false;
    for c in text.as_str().chars() {
        bad |= is_forbidden(c);
    }
    !bad
}

impl Iri {
    /// The IRI of this text, None exactly where it holds a character that IRIREF forbids. Whether the IRI is absolute
    /// is not looked at.
    pub fn new(text: Text) -> Option<Iri>
        ensures grammar { IsSome result ↔ IsTrue (is_iri text) }
        ensures text { IfSome result (λ iri. iri ≡ text) }
    {
        if is_iri(&text) {
            Some(Iri { text })
        } else {
            None
        }
    }

    /// The IRI of a text that is one's, which isn't looked at again.
    pub fn of_grammar(text: Text) -> Iri
        requires { IsTrue (is_iri text) }
        ensures { result ≡ text }
    {
        Iri { text }
    }

    /// The characters.
    pub fn as_str(&self) -> &str
        ensures bytes { result.now ≡ encode_utf8_all self.now }
        ensures chars { chars result.now ≡ self.now }
        ensures grammar { IsTrue (is_iri self.now) }
    {
        self.text.as_str()
    }
}

impl TryCopy for Iri {
    fn copy(&self, alloc: Global) -> Result<Iri, AllocError> {
        Ok(Iri {
            text: self.text.copy(alloc)?,
        })
    }
}
