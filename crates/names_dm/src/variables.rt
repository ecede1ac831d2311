ghost use Rattle.std.specs.Prelude.{◌≡◌, ◌<◌, ◌++◌, length, List, ℕ, IfOk, IsTrue, OnOk, chars, string_bytes, true};
ghost use Rattle.std.specs.Fmt.{digit_glyph};
ghost use Rattle.names_dm.specs.Terminals.{is_variable};
ghost use Rattle.names_dm.specs.Variables.{IsReserved, stays_in_variable, variable_byte, variable_of};

use crate::characters::is_letter_or_digit;
use crate::var::Var;
use std::alloc::{AllocError, Global};
use value_dm::Text;

// The upper-case hexadecimal digit.
fn hexadecimal(digit: u8) -> char
    requires { digit < 16 }
    ensures { result ≡ digit_glyph true digit }
{
    if digit < 10 {
        (b'0' + digit) as char
    } else {
        (b'A' + (digit - 10)) as char
    }
}

// Adds what a byte of a name becomes.
fn push_byte(out: &mut String, byte: u8) -> Result<(), AllocError>
    ensures { OnOk result (string_bytes out.new ≡ string_bytes out.old ++ variable_byte byte) }
{
    if is_letter_or_digit(byte as char) {
        out.push(byte as char)?;
        return Ok(());
    }
    out.push('_')?;
    out.push(hexadecimal(byte / 16))?;
    out.push(hexadecimal(byte % 16))?;
    Ok(())
}

// The letters of a name's variable.
fn spelled(alloc: Global, name: &str) -> Result<Text, AllocError>
    requires { 0 < length name.now }
    ensures text { IfOk result (λ text. text ≡ variable_of (chars name.now)) }
    ensures grammar { IfOk result (λ text. IsTrue (is_variable text)) }
{
    let mut out = String::new(alloc);
    for byte in name.as_bytes() {
        push_byte(&mut out, *byte)?;
    }
    let text = Text::from_str(alloc, out.as_str())?;
    Ok(text)
}

/// The variable of a name, which is not empty: ASCII letters and digits stay, every other byte of its UTF-8 form becomes
/// `_` and two upper-case hexadecimal digits. Different names have different variables, and none has `_r`, `_s`, `_m` or
/// one that begins with `_q`. Refused for want of memory alone.
pub fn variable(alloc: Global, name: &str) -> Result<Var, AllocError>
    requires { 0 < length name.now }
    ensures text { IfOk result (λ var. var ≡ variable_of (chars name.now)) }
    ensures apart { IfOk result (λ var. (other : List ℕ) → variable_of other ≡ var → other ≡ chars name.now) }
    ensures free { IfOk result (λ var. ¬ IsReserved var) }
{
    let text = spelled(alloc, name)?;
    Ok(Var::of_grammar(text))
}
