ghost use Rattle.std.specs.Prelude.{◌≡◌, ◌++◌, [], ◌∷◌, IfOk, IsTrue, OnOk, decimal, nat_lt};
ghost use Rattle.std.specs.List.{list_all};
ghost use Rattle.bench_dm.specs.Rows.{integer, numbered};

use std::alloc::{AllocError, Global};
use value_dm::{Cells, Text, Value};

/// A text of ASCII letters. Refused for want of memory alone.
pub fn name(alloc: Global, letters: &str) -> Result<Text, AllocError>
    requires { IsTrue (list_all (λ letter. nat_lt letter 128) letters.now) }
    ensures { IfOk result (λ text. text ≡ letters.now) }
{
    Text::from_str(alloc, letters)
}

/// Appends an integer.
pub fn push_integer(row: &mut Cells, number: u32) -> Result<(), AllocError>
    ensures { OnOk result (row.new ≡ row.old ++ integer number ∷ []) }
{
    row.push(Some(Value::Integer(i64::from(number))))?;
    Ok(())
}

/// Appends a NULL.
pub fn push_null(row: &mut Cells) -> Result<(), AllocError>
    ensures { OnOk result (row.new ≡ row.old ++ None ∷ []) }
{
    row.push(None)?;
    Ok(())
}

fn numbered(alloc: Global, letter: &str, number: u32) -> Result<Text, AllocError>
    requires { IsTrue (list_all (λ letter. nat_lt letter 128) letter.now) }
    ensures { IfOk result (λ text. text ≡ letter.now ++ decimal number) }
{
    Ok(Text::from_string(format!(in alloc; "{letter}{number}")?))
}

/// Appends a text of a letter and a number. Refused for want of memory alone.
pub fn push_numbered(
    alloc: Global,
    row: &mut Cells,
    letter: &str,
    number: u32,
) -> Result<(), AllocError>
    requires { IsTrue (list_all (λ letter. nat_lt letter 128) letter.now) }
    ensures { OnOk result (row.new ≡ row.old ++ numbered letter.now number ∷ []) }
{
    row.push(Some(Value::Text(numbered(alloc, letter, number)?)))?;
    Ok(())
}
