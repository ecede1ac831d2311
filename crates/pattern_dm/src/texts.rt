// Patterns as SPARQL text.
ghost use Rattle.std.specs.Prelude.{◌≡◌, ◌≢◌, ◌++◌, [], IfOk, OnOk, codes, length, map, string_bytes};
ghost use Rattle.ntriples_dm.specs.Written as written;
ghost use Rattle.pattern_dm.specs.Formed.{IsWellFormed};
ghost use Rattle.pattern_dm.specs.Texts.{condition_text, filter_text, filter_unless_true, gap, operand_text, pattern_text, query_text, rename_text, side_text, spaced, variable_text};

use crate::operands::{Side, side_of};
use crate::pattern::{Condition, Operand, Pattern};
use names_dm::{Term, Var, Vars};
use ntriples_dm::term_text;
use solutions_dm::Rename;
use std::alloc::{AllocError, Global};
use value_dm::same;

fn put(out: &mut String, piece: &str) -> Result<(), AllocError>
    ensures { OnOk result (string_bytes out.new ≡ string_bytes out.old ++ piece.now) }
{
    out.push_str(piece)
}

fn push_variable(out: &mut String, name: &Var) -> Result<(), AllocError>
    ensures { OnOk result (string_bytes out.new ≡ string_bytes out.old ++ variable_text name.now) }
{
    out.push_str("?")?;
    out.push_str(name.as_str())
}

// Adds the written form of a term.
fn push_term(alloc: Global, out: &mut String, term: &Term) -> Result<(), AllocError>
    ensures { OnOk result (string_bytes out.new ≡ string_bytes out.old ++ written.term_text term.now) }
{
    let text = term_text(alloc, term)?;
    out.push_str(text.as_str())
}

fn push_side(alloc: Global, out: &mut String, side: &Side) -> Result<(), AllocError>
    ensures { OnOk result (string_bytes out.new ≡ string_bytes out.old ++ side_text side.now) }
{
    match side {
        Side::Var(name) => push_variable(out, name),
        Side::Term(term) => push_term(alloc, out, term),
    }
}

fn push_operand(alloc: Global, out: &mut String, operand: &Operand) -> Result<(), AllocError>
    ensures { OnOk result (string_bytes out.new ≡ string_bytes out.old ++ operand_text operand.now) }
{
    let side = side_of(alloc, operand)?;
    push_side(alloc, out, &side)
}

fn push_bound(out: &mut String, name: &Var) -> Result<(), AllocError>
    ensures { OnOk result (string_bytes out.new ≡ string_bytes out.old ++ condition_text (Condition.Bound name.now)) }
{
    out.push_str("bound(")?;
    push_variable(out, name)?;
    out.push_str(")")
}

fn push_same(
    alloc: Global,
    out: &mut String,
    first: &Operand,
    second: &Operand,
) -> Result<(), AllocError>
    ensures { OnOk result (string_bytes out.new ≡ string_bytes out.old ++ condition_text (Condition.SameTerm first.now second.now)) }
{
    out.push_str("sameTerm(")?;
    push_operand(alloc, out, first)?;
    out.push_str(", ")?;
    push_operand(alloc, out, second)?;
    out.push_str(")")
}

fn push_condition(alloc: Global, out: &mut String, condition: &Condition) -> Result<(), AllocError>
    ensures { OnOk result (string_bytes out.new ≡ string_bytes out.old ++ condition_text condition.now) }
{
    match condition {
        Condition::True => put(out, "true"),
        Condition::Bound(name) => push_bound(out, name),
        Condition::SameTerm(first, second) => push_same(alloc, out, first, second),
        Condition::Not(part) => {
            put(out, "( ! ")?;
            push_condition(alloc, out, part.get())?;
            put(out, " )")?;
            Ok(())
        }
        Condition::And(left, right) => {
            put(out, "( ")?;
            push_condition(alloc, out, left.get())?;
            put(out, " && ")?;
            push_condition(alloc, out, right.get())?;
            put(out, " )")?;
            Ok(())
        }
        Condition::Or(left, right) => {
            put(out, "( ")?;
            push_condition(alloc, out, left.get())?;
            put(out, " || ")?;
            push_condition(alloc, out, right.get())?;
            put(out, " )")?;
            Ok(())
        }
    }
}

fn push_filter(alloc: Global, out: &mut String, condition: &Condition) -> Result<(), AllocError>
    ensures { OnOk result (string_bytes out.new ≡ string_bytes out.old ++ filter_text condition.now) }
{
    out.push_str(" FILTER ( ")?;
    push_condition(alloc, out, condition)?;
    out.push_str(" )")
}

// Adds a filter, but for `True`.
fn push_filter_unless_true(
    alloc: Global,
    out: &mut String,
    condition: &Condition,
) -> Result<(), AllocError>
    ensures { OnOk result (string_bytes out.new ≡ string_bytes out.old ++ filter_unless_true condition.now) }
{
    match condition {
        Condition::True => Ok(()),
        Condition::Bound(_) => push_filter(alloc, out, condition),
        Condition::SameTerm(_, _) => push_filter(alloc, out, condition),
        Condition::Not(_) => push_filter(alloc, out, condition),
        Condition::And(_, _) => push_filter(alloc, out, condition),
        Condition::Or(_, _) => push_filter(alloc, out, condition),
    }
}

fn push_other_name(out: &mut String, rename: &Rename) -> Result<(), AllocError>
    ensures { OnOk result (string_bytes out.new ≡ string_bytes out.old ++ (codes "(" ++ variable_text rename.now.from ++ codes " AS " ++ variable_text rename.now.to ++ codes ")")) }
{
    out.push_str("(")?;
    push_variable(out, &rename.from)?;
    out.push_str(" AS ")?;
    push_variable(out, &rename.to)?;
    out.push_str(")")
}

fn push_rename(out: &mut String, rename: &Rename) -> Result<(), AllocError>
    ensures { OnOk result (string_bytes out.new ≡ string_bytes out.old ++ rename_text rename.now) }
{
    if same(&rename.from, &rename.to) {
        push_variable(out, &rename.to)
    } else {
        push_other_name(out, rename)
    }
}

// Adds a space, but before the first.
fn push_gap(out: &mut String, place: usize) -> Result<(), AllocError>
    ensures { OnOk result (string_bytes out.new ≡ string_bytes out.old ++ gap place) }
{
    if place == 0 {
        Ok(())
    } else {
        out.push_str(" ")
    }
}

fn push_renames(out: &mut String, renames: &[Rename]) -> Result<(), AllocError>
    ensures { OnOk result (string_bytes out.new ≡ string_bytes out.old ++ spaced (map rename_text renames.now)) }
{
    for (place, rename) in renames.iter().enumerate() {
        push_gap(out, place)?;
        push_rename(out, rename)?;
    }
    Ok(())
}

fn push_header(out: &mut String, header: &[Var]) -> Result<(), AllocError>
    ensures { OnOk result (string_bytes out.new ≡ string_bytes out.old ++ spaced (map variable_text header.now)) }
{
    for (place, name) in header.iter().enumerate() {
        push_gap(out, place)?;
        push_variable(out, name)?;
    }
    Ok(())
}

fn push_triple(
    alloc: Global,
    out: &mut String,
    subject: &Operand,
    predicate: &Operand,
    object: &Operand,
) -> Result<(), AllocError>
    ensures { OnOk result (string_bytes out.new ≡ string_bytes out.old ++ pattern_text (Pattern.Triple subject.now predicate.now object.now)) }
{
    out.push_str("{ ")?;
    push_operand(alloc, out, subject)?;
    out.push_str(" ")?;
    push_operand(alloc, out, predicate)?;
    out.push_str(" ")?;
    push_operand(alloc, out, object)?;
    out.push_str(" . }")
}

fn push_pattern(alloc: Global, out: &mut String, pattern: &Pattern) -> Result<(), AllocError>
    ensures { OnOk result (string_bytes out.new ≡ string_bytes out.old ++ pattern_text pattern.now) }
{
    match pattern {
        Pattern::Empty => put(out, "{ }"),
        Pattern::Triple(s, p, o) => push_triple(alloc, out, s, p, o),
        Pattern::And(left, right) => {
            put(out, "{ ")?;
            push_pattern(alloc, out, left.get())?;
            put(out, " ")?;
            push_pattern(alloc, out, right.get())?;
            put(out, " }")?;
            Ok(())
        }
        Pattern::LeftJoin(left, right, condition) => {
            put(out, "{ ")?;
            push_pattern(alloc, out, left.get())?;
            put(out, " OPTIONAL { ")?;
            push_pattern(alloc, out, right.get())?;
            push_filter_unless_true(alloc, out, condition)?;
            put(out, " } }")?;
            Ok(())
        }
        Pattern::Union(left, right) => {
            put(out, "{ ")?;
            push_pattern(alloc, out, left.get())?;
            put(out, " UNION ")?;
            push_pattern(alloc, out, right.get())?;
            put(out, " }")?;
            Ok(())
        }
        Pattern::Minus(left, right) => {
            put(out, "{ ")?;
            push_pattern(alloc, out, left.get())?;
            put(out, " MINUS ")?;
            push_pattern(alloc, out, right.get())?;
            put(out, " }")?;
            Ok(())
        }
        Pattern::Filter(part, condition) => {
            put(out, "{ ")?;
            push_pattern(alloc, out, part.get())?;
            push_filter(alloc, out, condition)?;
            put(out, " }")?;
            Ok(())
        }
        Pattern::Select(part, renames) => {
            put(out, "{ SELECT ")?;
            push_renames(out, renames.as_slice())?;
            put(out, " WHERE ")?;
            push_pattern(alloc, out, part.get())?;
            put(out, " }")?;
            Ok(())
        }
    }
}

/// The query for the variables of a header as SPARQL text (SPARQL 1.1 Query Language, section 19.8): `SELECT DISTINCT`,
/// the variables, `WHERE` and the pattern, whose terms are written as in N-Triples. The pattern is well-formed, and the
/// header isn't empty. Refused for want of memory alone.
pub fn sparql_text(alloc: Global, header: &Vars, pattern: &Pattern) -> Result<String, AllocError>
    requires formed { IsWellFormed pattern.now }
    requires some { header.now ≢ [] }
    ensures { IfOk result (λ text. string_bytes text ≡ query_text header.now pattern.now) }
{
    let mut text = String::new(alloc);
    text.push_str("SELECT DISTINCT ")?;
    push_header(&mut text, header.as_slice())?;
    text.push_str(" WHERE ")?;
    push_pattern(alloc, &mut text, pattern)?;
    Ok(text)
}
