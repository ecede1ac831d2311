// The triples of the patterns of tables.
ghost use Rattle.std.specs.Prelude.{◌≡◌, ◌≢◌, [], IfOk};
ghost use Rattle.members_dm.specs.Membership.{IsIn};
ghost use Rattle.pattern_dm.specs.declared.pattern.Condition.TheVariants as conditions;
ghost use Rattle.pattern_dm.specs.declared.pattern.Pattern.TheVariants as patterns;
ghost use Rattle.table_patterns_dm.specs.TablePatterns as spec;

use facts_dm::Word;
use names_dm::{Base, Var, column_iri, table_iri};
use pattern_dm::{Condition, Operand, Pattern};
use pattern_parts_dm::{both, left_join, row_variable, triple, variable_of};
use sqlite_items::Boxed;
use std::alloc::{AllocError, Global};
use value_dm::Text;

/// The row is one of the table's. Refused for want of memory alone.
pub fn type_triple(alloc: Global, base: &Base, table: &Text) -> Result<Boxed<Pattern>, AllocError>
    ensures { IfOk result (λ made. made ≡ spec.type_triple base.now table.now) }
{
    let subject = row_variable(alloc)?;
    let predicate = Word::RdfType.iri(alloc)?;
    let object = table_iri(alloc, base, table.as_str())?;
    triple(
        alloc,
        Operand::Var(subject),
        Operand::Iri(predicate),
        Operand::Iri(object),
    )
}

/// The node has a value in the table's column, and it is that of the attribute. Refused for want of memory alone.
pub fn value_triple(
    alloc: Global,
    base: &Base,
    node: Var,
    table: &Text,
    column: &Text,
    attribute: &Text,
) -> Result<Boxed<Pattern>, AllocError>
    requires { attribute.now ≢ [] }
    ensures { IfOk result (λ made. made ≡ spec.value_triple base.now node table.now column.now attribute.now) }
{
    let predicate = column_iri(alloc, base, table.as_str(), column.as_str())?;
    let object = variable_of(alloc, attribute)?;
    triple(
        alloc,
        Operand::Var(node),
        Operand::Iri(predicate),
        Operand::Var(object),
    )
}

// The row has a value in the column.
fn column_triple(
    alloc: Global,
    base: &Base,
    table: &Text,
    column: &Text,
) -> Result<Boxed<Pattern>, AllocError>
    requires { column.now ≢ [] }
    ensures { IfOk result (λ made. made ≡ spec.column_triple base.now table.now column.now) }
{
    let row = row_variable(alloc)?;
    value_triple(alloc, base, row, table, column, column)
}

// And the row has a value in the column.
fn with_column(
    alloc: Global,
    base: &Base,
    table: &Text,
    all: Boxed<Pattern>,
    column: &Text,
) -> Result<Boxed<Pattern>, AllocError>
    requires { column.now ≢ [] }
    ensures { IfOk result (λ made. made ≡ patterns.And all (spec.column_triple base.now table.now column.now)) }
{
    let triple = column_triple(alloc, base, table, column)?;
    both(alloc, all, triple)
}

/// The row has a value in each of the columns. Refused for want of memory alone.
pub fn with_columns(
    alloc: Global,
    base: &Base,
    table: &Text,
    pattern: Boxed<Pattern>,
    columns: &[Text],
) -> Result<Boxed<Pattern>, AllocError>
    requires { ¬ IsIn [] columns.now }
    ensures { IfOk result (λ made. made ≡ spec.with_columns base.now table.now pattern columns.now) }
{
    let mut all = pattern;
    for column in columns {
        all = with_column(alloc, base, table, all, column)?;
    }
    Ok(all)
}

// And the row's value in the column, where it has one.
fn with_choice(
    alloc: Global,
    base: &Base,
    table: &Text,
    all: Boxed<Pattern>,
    column: &Text,
) -> Result<Boxed<Pattern>, AllocError>
    requires { column.now ≢ [] }
    ensures { IfOk result (λ made. made ≡ patterns.LeftJoin all (spec.column_triple base.now table.now column.now) conditions.True) }
{
    let triple = column_triple(alloc, base, table, column)?;
    left_join(alloc, all, triple, Condition::True)
}

/// The row's values in the columns, where it has one. Refused for want of memory alone.
pub fn with_optional(
    alloc: Global,
    base: &Base,
    table: &Text,
    pattern: Boxed<Pattern>,
    columns: &[Text],
) -> Result<Boxed<Pattern>, AllocError>
    requires { ¬ IsIn [] columns.now }
    ensures { IfOk result (λ made. made ≡ spec.with_optional base.now table.now pattern columns.now) }
{
    let mut all = pattern;
    for column in columns {
        all = with_choice(alloc, base, table, all, column)?;
    }
    Ok(all)
}
