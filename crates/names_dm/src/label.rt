ghost use Rattle.std.specs.Prelude.{◌≡◌, ◌↔◌, ◌++◌, ◌∷◌, IfOk, IfSome, IsSome, IsTrue, chars, encode_utf8_all};
ghost use Rattle.names_dm.specs.Labels.{row_label};
ghost use Rattle.names_dm.specs.Terminals.{begins_label, continues_label, is_label, is_pn, is_pn_base, is_pn_u};

use crate::characters::{between, is_ascii_digit, is_ascii_letter};
use std::alloc::{AllocError, Global};
use std::marker::Model;
use value_dm::{Text, TryCopy};

/// The label of a blank node, as it stands after `_:` (RDF 1.1 N-Triples, section 7). Contracts see its characters.
#[derive(PartialEq, Eq, Hash, Drop)]
pub struct Label {
    text: Text,
}

impl Model for Label {
    ghost use Rattle.std.specs.Prelude.{List, ℕ, IsTrue};
    ghost use Rattle.names_dm.specs.Terminals.{is_label};

    ghost Value = { List ℕ };

    ghost view = { λ label. label.text };

    ghost invariant = { λ label. IsTrue (is_label label.text) };

    ghost inverse = { λ text. record { text = text } };
}

// PN_CHARS_BASE
fn is_pn_base(c: char) -> bool
    ensures { result ≡ is_pn_base c }
{
    is_ascii_letter(c)
        | between('\u{C0}', '\u{D6}', c)
        | between('\u{D8}', '\u{F6}', c)
        | between('\u{F8}', '\u{2FF}', c)
        | between('\u{370}', '\u{37D}', c)
        | between('\u{37F}', '\u{1FFF}', c)
        | between('\u{200C}', '\u{200D}', c)
        | between('\u{2070}', '\u{218F}', c)
        | between('\u{2C00}', '\u{2FEF}', c)
        | between('\u{3001}', '\u{D7FF}', c)
        | between('\u{F900}', '\u{FDCF}', c)
        | between('\u{FDF0}', '\u{FFFD}', c)
        | between('\u{10000}', '\u{EFFFF}', c)
}

// PN_CHARS_U
fn is_pn_u(c: char) -> bool
    ensures { result ≡ is_pn_u c }
{
    is_pn_base(c) | (c == '_') | (c == ':')
}

// PN_CHARS
fn is_pn(c: char) -> bool
    ensures { result ≡ is_pn c }
{
    is_pn_u(c)
        | (c == '-')
        | is_ascii_digit(c)
        | (c == '\u{B7}')
        | between('\u{300}', '\u{36F}', c)
        | between('\u{203F}', '\u{2040}', c)
}

#[tactic(auto, unfolding(crate::specs::Terminals::begins_label))]
fn begins_label(c: char) -> bool
    ensures { result ≡ begins_label c }
{
    is_pn_u(c) | is_ascii_digit(c)
}

#[tactic(auto, unfolding(crate::specs::Terminals::continues_label))]
fn continues_label(c: char) -> bool
    ensures { result ≡ continues_label c }
{
    is_pn(c) | (c == '.')
}

// Whether the text is a label's.
fn is_label(text: &Text) -> bool
    ensures { result ≡ is_label text.now }
{
    let mut good = true;
    let mut begun = false;
    let mut last = '.';
    for c in text.as_str().chars() {
        good &= (begun & continues_label(c)) | (!begun & begins_label(c));
        begun = true;
        last = c;
    }
    good & (last != '.')
}

impl Label {
    /// The label of this text, None exactly where BLANK_NODE_LABEL has no such label: it begins with a digit or a character
    /// of PN_CHARS_U, goes on with characters of PN_CHARS and dots, and doesn't end in a dot.
    pub fn new(text: Text) -> Option<Label>
        ensures grammar { IsSome result ↔ IsTrue (is_label text) }
        ensures text { IfSome result (λ label. label ≡ text) }
    {
        if is_label(&text) {
            Some(Label { text })
        } else {
            None
        }
    }

    /// The label of a text that is one's, which isn't looked at again.
    pub fn of_grammar(text: Text) -> Label
        requires { IsTrue (is_label text) }
        ensures { result ≡ text }
    {
        Label { text }
    }

    /// The characters.
    pub fn as_str(&self) -> &str
        ensures bytes { result.now ≡ encode_utf8_all self.now }
        ensures chars { chars result.now ≡ self.now }
        ensures grammar { IsTrue (is_label self.now) }
    {
        self.text.as_str()
    }
}

impl TryCopy for Label {
    fn copy(&self, alloc: Global) -> Result<Label, AllocError> {
        Ok(Label {
            text: self.text.copy(alloc)?,
        })
    }
}

/// The label `t<table>r<row>` of a row's blank node, the numbers written as they are given. Refused for want of memory
/// alone.
pub fn row_label(alloc: Global, table: u64, row: u64) -> Result<Label, AllocError>
    ensures { IfOk result (λ label. label ≡ row_label table row) }
{
    let text = format!(in alloc; "t{table}r{row}")?;
    Ok(Label {
        text: Text::from_str(alloc, text.as_str())?,
    })
}
