ghost use Rattle.std.specs.Prelude.{◌≡◌, ◌<◌, length, List, ℕ, IfOk, IfSome, MatchOption, None, Some, chars};
ghost use Rattle.names_dm.specs.Names.{column_iri, ref_iri, rel_iri, table_iri};
ghost use Rattle.names_dm.specs.Reading.{Tells, after, are_names, both_texts, cut_at, is_column_name, is_name, is_ref_name, is_rel_name, list_of, local_parts, only, pairing_of, read_column, read_ref, read_rel, read_table, told_column, told_ref, told_rel, told_table, unsafe_form};

use crate::base::Base;
use crate::iri::Iri;
use crate::iri_safe::{SafeError, unsafe_of};
use crate::names::{ColumnName, RefName, RelName};
use std::alloc::{AllocError, Global};
use value_dm::{Names, Text};

// What stands after the front.
fn after<'a>(text: &'a str, front: &str) -> Option<&'a str>
    ensures { MatchOption result (after (chars front.now) (chars text.now) ≡ None) (λ rest. after (chars front.now) (chars text.now) ≡ Some (chars rest.now)) }
{
    text.strip_prefix(front)
}

// What stands before and after the first mark.
fn cut(text: &str, mark: char) -> Option<(&str, &str)>
    requires { mark < 128 }
    ensures parts { MatchOption result (cut_at mark (chars text.now) ≡ None) (λ parts. cut_at mark (chars text.now) ≡ Some (chars parts.0.now, chars parts.1.now)) }
    ensures shorter { IfSome result (λ parts. length parts.1.now < length text.now) }
{
    text.split_once(mark)
}

// What stands before and after `#`, behind the base.
fn local_parts<'a>(base: &Base, iri: &'a Iri) -> Option<(&'a str, &'a str)>
    ensures { MatchOption result (local_parts base.now iri.now ≡ None) (λ parts. local_parts base.now iri.now ≡ Some (chars parts.0.now, chars parts.1.now)) }
{
    let Some(rest) = after(iri.as_str(), base.as_str()) else {
        return None;
    };
    cut(rest, '#')
}

// The text whose safe form this is.
fn told_text(alloc: Global, form: &str) -> Result<Option<Text>, AllocError>
    ensures { IfOk result (λ told. told ≡ unsafe_form (chars form.now)) }
{
    match unsafe_of(alloc, form) {
        Ok(text) => Ok(Some(Text::from_str(alloc, text.as_str())?)),
        Err(SafeError::NotSafe) => Ok(None),
        Err(SafeError::Memory) => Err(AllocError),
    }
}

// Whether the text is a name: it is not empty and doesn't begin with U+FEFF.
fn is_name(text: &Text) -> bool
    ensures { result ≡ is_name text.now }
{
    match text.as_str().chars().next() {
        None => false,
        Some(c) => c != '\u{FEFF}',
    }
}

// The texts on both sides.
fn both_texts(alloc: Global, front: &str, back: &str) -> Result<Option<(Text, Text)>, AllocError>
    ensures { IfOk result (λ told. told ≡ both_texts (chars front.now, chars back.now)) }
{
    let Some(one) = told_text(alloc, front)? else {
        return Ok(None);
    };
    let Some(other) = told_text(alloc, back)? else {
        return Ok(None);
    };
    Ok(Some((one, other)))
}

fn told_table(alloc: Global, base: &Base, iri: &Iri) -> Result<Option<Text>, AllocError>
    ensures { IfOk result (λ told. told ≡ told_table base.now iri.now) }
{
    let Some(form) = after(iri.as_str(), base.as_str()) else {
        return Ok(None);
    };
    told_text(alloc, form)
}

fn told_column(alloc: Global, base: &Base, iri: &Iri) -> Result<Option<ColumnName>, AllocError>
    ensures { IfOk result (λ told. told ≡ told_column base.now iri.now) }
{
    let Some((table, column)) = local_parts(base, iri) else {
        return Ok(None);
    };
    let Some((table, column)) = both_texts(alloc, table, column)? else {
        return Ok(None);
    };
    Ok(Some(ColumnName { table, column }))
}

// The texts between semicolons.
fn told_list(alloc: Global, text: &str) -> Result<Option<Names>, AllocError>
    ensures { IfOk result (λ told. told ≡ list_of (chars text.now)) }
{
    let mut texts = Names::new(alloc);
    let mut rest = text;
    'parts: while let Some((form, more)) = cut(rest, ';') {
        let Some(one) = told_text(alloc, form)? else {
            return Ok(None);
        };
        texts.push(one)?;
        rest = more;
    }
    let Some(last) = told_text(alloc, rest)? else {
        return Ok(None);
    };
    texts.push(last)?;
    Ok(Some(texts))
}

fn told_ref(alloc: Global, base: &Base, iri: &Iri) -> Result<Option<RefName>, AllocError>
    ensures { IfOk result (λ told. told ≡ told_ref base.now iri.now) }
{
    let Some((table, rest)) = local_parts(base, iri) else {
        return Ok(None);
    };
    let Some(table) = told_text(alloc, table)? else {
        return Ok(None);
    };
    let Some(list) = after(rest, "ref-") else {
        return Ok(None);
    };
    let Some(columns) = told_list(alloc, list)? else {
        return Ok(None);
    };
    Ok(Some(RefName { table, columns }))
}

// The texts on both sides of `=`.
fn told_pairing(alloc: Global, text: &str) -> Result<Option<(Text, Text)>, AllocError>
    ensures { IfOk result (λ told. told ≡ pairing_of (chars text.now)) }
{
    let Some((column, target)) = cut(text, '=') else {
        return Ok(None);
    };
    both_texts(alloc, column, target)
}

fn told_rel(alloc: Global, base: &Base, iri: &Iri) -> Result<Option<RelName>, AllocError>
    ensures { IfOk result (λ told. told ≡ told_rel base.now iri.now) }
{
    let Some((table, rest)) = local_parts(base, iri) else {
        return Ok(None);
    };
    let Some(table) = told_text(alloc, table)? else {
        return Ok(None);
    };
    let Some(sides) = after(rest, "rel-") else {
        return Ok(None);
    };
    let Some((left, right)) = cut(sides, ';') else {
        return Ok(None);
    };
    let Some((left, left_target)) = told_pairing(alloc, left)? else {
        return Ok(None);
    };
    let Some((right, right_target)) = told_pairing(alloc, right)? else {
        return Ok(None);
    };
    Ok(Some(RelName {
        table,
        left,
        left_target,
        right,
        right_target,
    }))
}

// Whether each text is a name, and there is one.
fn are_names(texts: &Names) -> bool
    ensures { result ≡ are_names texts.now }
{
    let mut good = true;
    for text in texts.as_slice() {
        good &= is_name(text);
    }
    good & (texts.len() > 0)
}

// The name, if it is one.
fn only_table(told: Option<Text>) -> Option<Text>
    ensures { result ≡ only is_name told }
{
    let table = told?;
    if is_name(&table) { Some(table) } else { None }
}

fn only_column(told: Option<ColumnName>) -> Option<ColumnName>
    ensures { result ≡ only is_column_name told }
{
    let name = told?;
    if is_name(&name.table) & is_name(&name.column) {
        Some(name)
    } else {
        None
    }
}

fn only_ref(told: Option<RefName>) -> Option<RefName>
    ensures { result ≡ only is_ref_name told }
{
    let name = told?;
    if is_name(&name.table) & are_names(&name.columns) {
        Some(name)
    } else {
        None
    }
}

// Whether all texts are names.
fn is_rel_name(name: &RelName) -> bool
    ensures { result ≡ is_rel_name name.now }
{
    is_name(&name.table)
        & is_name(&name.left)
        & is_name(&name.left_target)
        & is_name(&name.right)
        & is_name(&name.right_target)
}

fn only_rel(told: Option<RelName>) -> Option<RelName>
    ensures { result ≡ only is_rel_name told }
{
    let name = told?;
    if is_rel_name(&name) { Some(name) } else { None }
}

/// The table that the IRI names: the name, not empty and not beginning with U+FEFF, of which `table_iri` gives it. None
/// exactly where there is none. Refused for want of memory alone.
pub fn read_table_iri(alloc: Global, base: &Base, iri: &Iri) -> Result<Option<Text>, AllocError>
    ensures names { IfOk result (Tells is_name (table_iri base.now) iri.now) }
    ensures value { IfOk result (λ found. found ≡ read_table base.now iri.now) }
{
    let told = told_table(alloc, base, iri)?;
    Ok(only_table(told))
}

/// The column that the IRI names: the names, none empty and none beginning with U+FEFF, of which `column_iri` gives it.
/// None exactly where there are none. Refused for want of memory alone.
pub fn read_column_iri(
    alloc: Global,
    base: &Base,
    iri: &Iri,
) -> Result<Option<ColumnName>, AllocError>
    ensures names { IfOk result (Tells is_column_name (column_iri base.now) iri.now) }
    ensures value { IfOk result (λ found. found ≡ read_column base.now iri.now) }
{
    let told = told_column(alloc, base, iri)?;
    Ok(only_column(told))
}

/// The reference that the IRI names: the names, at least one column, none empty and none beginning with U+FEFF, of which
/// `ref_iri` gives it. None exactly where there are none. Refused for want of memory alone.
pub fn read_ref_iri(alloc: Global, base: &Base, iri: &Iri) -> Result<Option<RefName>, AllocError>
    ensures names { IfOk result (Tells is_ref_name (ref_iri base.now) iri.now) }
    ensures value { IfOk result (λ found. found ≡ read_ref base.now iri.now) }
{
    let told = told_ref(alloc, base, iri)?;
    Ok(only_ref(told))
}

/// The relation that the IRI names: the names, none empty and none beginning with U+FEFF, of which `rel_iri` gives it.
/// None exactly where there are none. Refused for want of memory alone.
pub fn read_rel_iri(alloc: Global, base: &Base, iri: &Iri) -> Result<Option<RelName>, AllocError>
    ensures names { IfOk result (Tells is_rel_name (rel_iri base.now) iri.now) }
    ensures value { IfOk result (λ found. found ≡ read_rel base.now iri.now) }
{
    let told = told_rel(alloc, base, iri)?;
    Ok(only_rel(told))
}
