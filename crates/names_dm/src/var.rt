ghost use Rattle.std.specs.Prelude.{◌≡◌, ◌↔◌, IfSome, IsSome, IsTrue, chars, encode_utf8_all};
ghost use Rattle.names_dm.specs.Terminals.{is_variable, is_variable_character};

use crate::characters::is_letter_or_digit;
use std::alloc::{AllocError, Global};
use std::marker::Model;
use value_dm::{Text, TryCopy};

/// The name of a variable: one or more ASCII letters, digits and `_`. Contracts see its characters.
#[derive(PartialEq, Eq, Drop)]
pub struct Var {
    text: Text,
}

impl Model for Var {
    ghost use Rattle.std.specs.Prelude.{List, ℕ, IsTrue};
    ghost use Rattle.names_dm.specs.Terminals.{is_variable};

    ghost Value = { List ℕ };

    ghost view = { λ var. var.text };

    ghost invariant = { λ var. IsTrue (is_variable var.text) };

    ghost inverse = { λ text. record { text = text } };
}

fn is_variable_character(c: char) -> bool
    ensures { result ≡ is_variable_character c }
{
    is_letter_or_digit(c) | (c == '_')
}

// Whether the text is a variable's name.
fn is_variable(text: &Text) -> bool
    ensures { result ≡ is_variable text.now }
{
    let mut bad = false;
    let mut begun = false;
    for c in text.as_str().chars() {
        bad |= !is_variable_character(c);
        begun = true;
    }
    begun & !bad
}

impl Var {
    /// The name of this text, None exactly where it is empty or has another character than ASCII letters, digits and
    /// `_`.
    pub fn new(text: Text) -> Option<Var>
        ensures grammar { IsSome result ↔ IsTrue (is_variable text) }
        ensures text { IfSome result (λ var. var ≡ text) }
    {
        if is_variable(&text) {
            Some(Var { text })
        } else {
            None
        }
    }

    // The name of a text that is one's.
    pub(crate) fn of_grammar(text: Text) -> Var
        requires { IsTrue (is_variable text) }
        ensures { result ≡ text }
    {
        Var { text }
    }

    /// The characters.
    pub fn as_str(&self) -> &str
        ensures bytes { result.now ≡ encode_utf8_all self.now }
        ensures chars { chars result.now ≡ self.now }
        ensures grammar { IsTrue (is_variable self.now) }
    {
        self.text.as_str()
    }
}

impl TryCopy for Var {
    fn copy(&self, alloc: Global) -> Result<Var, AllocError> {
        Ok(Var {
            text: self.text.copy(alloc)?,
        })
    }
}
