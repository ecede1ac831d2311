ghost use Rattle.std.specs.Prelude.{◌≡◌, ◌⊎◌, ◌<◌, ◌≤◌, ◌++◌, IfOk, OnOk, All, decimal, length, string_bytes};
ghost use Rattle.std.specs.List.{flat_map};
ghost use Rattle.cmd_dm.specs.Check.{check_script, check_text, kind_text, violation_line};
ghost use Rattle.cmd_dm.specs.Ending.{Ends, result_status, to_output};

use crate::graphs::end_of_puts;
use crate::status::Status;
use crate::steps::read_database;
use itoa::Buffer;
use keys_dm::{Violation, ViolationKind, violations};
use names_dm::safe;
use outside_dm::{Shelf, Sink};
use schema_dm::Table;
use std::alloc::{AllocError, Global};
use value_dm::{NullMode, Text};

/// Appends a number in decimal digits.
fn push_number(text: &mut String, number: u64) -> Result<(), AllocError>
    ensures { OnOk result (string_bytes text.new ≡ string_bytes text.old ++ decimal number) }
{
    let mut digits = Buffer::new();
    text.push_str(digits.format(number))
}

/// Appends a label and a number.
pub(crate) fn push_labelled(text: &mut String, label: &str, number: u64) -> Result<(), AllocError>
    ensures { OnOk result (string_bytes text.new ≡ string_bytes text.old ++ (label.now ++ decimal number)) }
{
    text.push_str(label)?;
    push_number(text, number)
}

/// Appends the kind of a violation.
fn push_kind(text: &mut String, kind: &ViolationKind) -> Result<(), AllocError>
    ensures { OnOk result (string_bytes text.new ≡ string_bytes text.old ++ kind_text kind.now) }
{
    match kind {
        ViolationKind::NullKey => text.push_str("null-key"),
        ViolationKind::RepeatedKey => text.push_str("repeated-key"),
        ViolationKind::RepeatedUnique(key) => push_labelled(text, "repeated-unique ", *key),
        ViolationKind::Dangling(key) => push_labelled(text, "dangling ", *key),
    }
}

/// Appends the line of a violation.
#[tactic(auto, unfolding(crate::specs::Check::violation_line))]
pub(crate) fn push_line(
    alloc: Global,
    text: &mut String,
    tables: &[Table],
    violation: &Violation,
) -> Result<(), AllocError>
    requires { (0 < violation.now.table) × (violation.now.table ≤ length tables.now) }
    ensures { OnOk result (string_bytes text.new ≡ string_bytes text.old ++ violation_line tables.now violation.now) }
{
    let table = &tables[violation.table as usize - 1];
    let name = safe(alloc, table.name.as_str())?;
    text.push_str(name.as_str())?;
    push_labelled(text, " ", violation.row)?;
    text.push_str(" ")?;
    push_kind(text, &violation.kind)?;
    text.push_str("\n")
}

/// The text of `check` for these violations.
#[tactic(auto, unfolding(crate::specs::Check::check_text))]
fn check_text(alloc: Global, tables: &[Table], found: &[Violation]) -> Result<String, AllocError>
    requires { All (λ violation. (0 < violation.table) × (violation.table ≤ length tables.now)) found.now }
    ensures { IfOk result (λ text. string_bytes text ≡ check_text tables.now found.now) }
{
    let mut text = String::new(alloc);
    for violation in found {
        push_line(alloc, &mut text, tables, violation)?;
    }
    push_labelled(&mut text, "violations ", found.len() as u64)?;
    text.push_str("\n")?;
    Ok(text)
}

/// `check FOLDER`: writes a line for each violated key of the folder's database, and their count.
pub(crate) fn run_check<S: Shelf, K: Sink>(
    alloc: Global,
    folder: &Text,
    nulls: NullMode,
    shelf: &mut S,
    out: &mut K,
) -> Result<(), Status>
    ensures { Ends to_output (check_script folder.now nulls) (S.state shelf.old) (S.state shelf.new) (K.state out.old) (K.state out.new) (result_status result) }
{
    let database = read_database(alloc, folder, nulls, shelf)?;
    let found = violations(alloc, &database)?;
    let text = check_text(alloc, database.schema().tables(), found.as_slice())?;
    end_of_puts(out.put(text.as_bytes()))
}
