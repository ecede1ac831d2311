// IRIs, labels and tags.
ghost use Rattle.std.specs.Prelude.{◌≡◌, ◌<◌, ◌≤◌, ◌++◌, [], ◌∷◌, ℕ, length, chars, IfOk, IsUtf8, IsCharBoundary, ◌-◌, true, Some, None, ◌==◌, ◌&&◌, if◌then◌else◌};
ghost use Rattle.lanes_dm.specs.ByteSet.{has_byte};
ghost use Rattle.names_dm.specs.Terminals.{begins_label, continues_label, is_letter_or_digit, is_pn, is_pn_base, is_pn_u};
ghost use Rattle.names_dm.specs.Characters.{is_ascii_digit, is_ascii_letter};
ghost use Rattle.ntriples_reader_dm.specs.Reading.{iri_at, label_at, label_rest, label_text, tag_at, tag_rest, tag_text, starts, in_part};
ghost use Rattle.ntriples_reader_dm.specs.Views.{EndsWith, Gives, special};

use crate::classes::Kind;
use crate::fault::LineFault;
use crate::inside::inside;
use crate::text::{behind, first_char};
use lanes_dm::ByteClass;
use names_dm::{Iri, Label, Tag};
use std::alloc::{AllocError, Global};
use value_dm::Text;

/// An IRI in its brackets.
#[tactic(auto, unfolding(crate::specs::Reading::iri_at))]
pub(crate) fn iri<'a>(
    alloc: Global,
    class: &ByteClass,
    text: &'a str,
) -> Result<(Iri, &'a str), LineFault>
    requires { (x : ℕ) → has_byte class.now x ≡ special Kind.Iri x }
    ensures seen { Gives (λ x. (x.0, chars x.1.now)) result (iri_at (chars text.now)) }
    ensures utf8 { IfOk result (λ x. IsUtf8 x.1.now) }
{
    let rest = behind(text, '<')?;
    let (text, rest) = inside(alloc, Kind::Iri, class, rest)?;
    Ok((Iri::of_grammar(text), rest))
}

fn is_letter(c: char) -> bool
    ensures { result ≡ is_ascii_letter c }
{
    matches!(c, 'A'..='Z' | 'a'..='z')
}

fn is_letter_or_digit(c: char) -> bool
    ensures { result ≡ is_letter_or_digit c }
{
    matches!(c, 'A'..='Z' | 'a'..='z' | '0'..='9')
}

fn is_pn_base(c: char) -> bool
    ensures { result ≡ is_pn_base c }
{
    is_letter(c)
        || matches!(c, '\u{C0}'..='\u{D6}' | '\u{D8}'..='\u{F6}' | '\u{F8}'..='\u{2FF}' | '\u{370}'..='\u{37D}'
            | '\u{37F}'..='\u{1FFF}' | '\u{200C}'..='\u{200D}' | '\u{2070}'..='\u{218F}' | '\u{2C00}'..='\u{2FEF}'
            | '\u{3001}'..='\u{D7FF}' | '\u{F900}'..='\u{FDCF}' | '\u{FDF0}'..='\u{FFFD}' | '\u{10000}'..='\u{EFFFF}')
}

fn is_digit(c: char) -> bool
    ensures { result ≡ is_ascii_digit c }
{
    matches!(c, '0'..='9')
}

fn is_pn_u(c: char) -> bool
    ensures { result ≡ is_pn_u c }
{
    is_pn_base(c) || (c == '_') || (c == ':')
}

#[tactic(auto, unfolding(names_dm::specs::Terminals::begins_label))]
fn begins_label(c: char) -> bool
    ensures { result ≡ begins_label c }
{
    is_pn_u(c) || is_digit(c)
}

fn is_pn(c: char) -> bool
    ensures { result ≡ is_pn c }
{
    is_pn_u(c)
        || (c == '-')
        || is_digit(c)
        || (c == '\u{B7}')
        || matches!(c, '\u{300}'..='\u{36F}')
        || matches!(c, '\u{203F}'..='\u{2040}')
}

#[tactic(auto, unfolding(names_dm::specs::Terminals::continues_label))]
fn continues_label(c: char) -> bool
    ensures { result ≡ continues_label c }
{
    is_pn(c) || (c == '.')
}

// Where a label ends at least, behind one more of its characters.
fn end_behind<'a>(c: char, end: &'a str, behind: &'a str) -> &'a str
    ensures { chars result.now ≡ (if c == 46 then chars end.now else chars behind.now) }
{
    if c == '.' { end } else { behind }
}

// What stands behind the rest of a label.
#[tactic(auto, using(crate::proofs::Behind::label_steps))]
fn behind_label(text: &str) -> &str
    ensures { chars result.now ≡ (label_rest (chars text.now)).1 }
{
    let mut end = text;
    let mut rest = text;
    'label: while let Some((c, behind)) = first_char(rest) {
        if !continues_label(c) {
            return end;
        }
        end = end_behind(c, end, behind);
        rest = behind;
    }
    end
}

// The text before the rest of one.
fn text_before(alloc: Global, text: &str, rest: &str) -> Result<Text, AllocError>
    requires { EndsWith (chars text.now) (chars rest.now) }
    ensures { IfOk result (λ t. t ++ chars rest.now ≡ chars text.now) }
{
    let (front, _) = text.split_at(text.len() - rest.len());
    Text::from_str(alloc, front)
}

// The longest label.
#[tactic(auto, unfolding(crate::specs::Reading::label_text))]
fn label_text(alloc: Global, text: &str) -> Result<(Text, &str), LineFault>
    ensures seen { Gives (λ x. (x.0, chars x.1.now)) result (label_text (chars text.now)) }
    ensures utf8 { IfOk result (λ x. IsUtf8 x.1.now) }
{
    match first_char(text) {
        Some((first, behind)) => {
            if begins_label(first) {
                let rest = behind_label(behind);
                let label = text_before(alloc, text, rest)?;
                Ok((label, rest))
            } else {
                Err(LineFault::Bad)
            }
        }
        None => Err(LineFault::Bad),
    }
}

/// A label behind `_:`.
#[tactic(auto, unfolding(crate::specs::Reading::label_at))]
pub(crate) fn label(alloc: Global, text: &str) -> Result<(Label, &str), LineFault>
    ensures seen { Gives (λ x. (x.0, chars x.1.now)) result (label_at (chars text.now)) }
    ensures utf8 { IfOk result (λ x. IsUtf8 x.1.now) }
{
    let rest = behind(text, '_')?;
    let rest = behind(rest, ':')?;
    let (label, rest) = label_text(alloc, rest)?;
    Ok((Label::of_grammar(label), rest))
}

fn in_part(first: bool, c: char) -> bool
    ensures { result ≡ in_part first c }
{
    if first {
        is_letter(c)
    } else {
        is_letter_or_digit(c)
    }
}

// Whether a letter or a digit stands there.
fn begins_part(text: &str) -> bool
    ensures { result ≡ starts is_letter_or_digit (chars text.now) }
{
    match first_char(text) {
        Some((first, _)) => is_letter_or_digit(first),
        None => false,
    }
}

// Whether it is a hyphen behind which a letter or a digit stands.
fn begins_more(c: char, text: &str) -> bool
    ensures { result ≡ ((c == 45) && starts is_letter_or_digit (chars text.now)) }
{
    (c == '-') && begins_part(text)
}

// What stands behind the rest of a tag.
#[tactic(auto, using(crate::proofs::Behind::tag_steps))]
fn behind_tag(text: &str) -> &str
    ensures { chars result.now ≡ (tag_rest true (chars text.now)).1 }
{
    let mut rest = text;
    let mut first = true;
    'tag: while let Some((c, behind)) = first_char(rest) {
        if in_part(first, c) {
            rest = behind;
            continue;
        }
        if !begins_more(c, behind) {
            return rest;
        }
        first = false;
        rest = behind;
    }
    rest
}

// The longest tag.
#[tactic(auto, unfolding(crate::specs::Reading::tag_text))]
fn tag_text(alloc: Global, text: &str) -> Result<(Text, &str), LineFault>
    ensures seen { Gives (λ x. (x.0, chars x.1.now)) result (tag_text (chars text.now)) }
    ensures utf8 { IfOk result (λ x. IsUtf8 x.1.now) }
{
    match first_char(text) {
        Some((first, behind)) => {
            if is_letter(first) {
                let rest = behind_tag(behind);
                let tag = text_before(alloc, text, rest)?;
                Ok((tag, rest))
            } else {
                Err(LineFault::Bad)
            }
        }
        None => Err(LineFault::Bad),
    }
}

/// A tag behind `@`.
#[tactic(auto, unfolding(crate::specs::Reading::tag_at))]
pub(crate) fn tag(alloc: Global, text: &str) -> Result<(Tag, &str), LineFault>
    ensures seen { Gives (λ x. (x.0, chars x.1.now)) result (tag_at (chars text.now)) }
    ensures utf8 { IfOk result (λ x. IsUtf8 x.1.now) }
{
    let rest = behind(text, '@')?;
    let (tag, rest) = tag_text(alloc, rest)?;
    Ok((Tag::of_grammar(tag), rest))
}
