ghost use Rattle.std.specs.Prelude.{◌≡◌, ◌≢◌, ◌++◌, List, ℕ, IfOk, IsErrOf, OnOk, chars, encode_utf8_all, string_bytes};
ghost use Rattle.names_dm.specs.IriSafe.{is_iri_character, is_unreserved, safe_character, safe_form, stays};

use crate::characters::{between, is_letter_or_digit};
use percent_encoding::{NON_ALPHANUMERIC, percent_decode_str, utf8_percent_encode};
use std::alloc::{AllocError, Global};
use thiserror::Error;

fn is_unreserved(c: char) -> bool
    ensures { result ≡ is_unreserved c }
{
    is_letter_or_digit(c) | (c == '-') | (c == '.') | (c == '_') | (c == '~')
}

fn is_iri_character(c: char) -> bool
    ensures { result ≡ is_iri_character c }
{
    between('\u{A0}', '\u{D7FF}', c)
        | between('\u{F900}', '\u{FDCF}', c)
        | between('\u{FDF0}', '\u{FFEF}', c)
        | (between('\u{10000}', '\u{DFFFD}', c) & (c as u32 % 0x10000 < 0xFFFE))
        | between('\u{E1000}', '\u{EFFFD}', c)
}

// Whether the character stands for itself in an IRI.
fn stays(c: char) -> bool
    ensures { result ≡ stays c }
{
    is_unreserved(c) | is_iri_character(c)
}

// Adds the safe form of one character.
fn push_safe_character(out: &mut String, c: char) -> Result<(), AllocError>
    ensures { OnOk result (string_bytes out.new ≡ string_bytes out.old ++ encode_utf8_all (safe_character c)) }
{
    if stays(c) {
        out.push(c)?;
        return Ok(());
    }
    let mut buffer = [0u8; 4];
    let bytes = c.encode_utf8(&mut buffer);
    utf8_percent_encode(bytes, NON_ALPHANUMERIC).append_to(out)?;
    Ok(())
}

// Adds the safe form of a text.
pub(crate) fn push_safe(out: &mut String, text: &str) -> Result<(), AllocError>
    ensures bytes { OnOk result (string_bytes out.new ≡ string_bytes out.old ++ encode_utf8_all (safe_form (chars text.now))) }
    ensures chars { OnOk result (chars (string_bytes out.new) ≡ chars (string_bytes out.old) ++ safe_form (chars text.now)) }
{
    for c in text.chars() {
        push_safe_character(out, c)?;
    }
    Ok(())
}

/// The IRI-safe form of the text: ASCII letters and digits, `-`, `.`, `_`, `~` and the characters `ucschar` of RFC 3987
/// (section 2.2) stay, every other character becomes `%` and two upper-case hexadecimal digits for each byte of its
/// UTF-8 form (R2RML, section 7.3). Refused for want of memory alone.
pub fn safe(alloc: Global, text: &str) -> Result<String, AllocError>
    ensures bytes { IfOk result (λ made. string_bytes made ≡ encode_utf8_all (safe_form (chars text.now))) }
    ensures chars { IfOk result (λ made. chars (string_bytes made) ≡ safe_form (chars text.now)) }
{
    let mut out = String::new(alloc);
    push_safe(&mut out, text)?;
    Ok(out)
}

/// Why a text has no text of which it is the safe form.
#[derive(Debug, Drop, Error, Clone, Copy, PartialEq, Eq)]
pub enum SafeError {
    #[error("not the safe form of a text")]
    NotSafe,
    #[error("out of memory")]
    Memory,
}

/// The text whose IRI-safe form this is. `NotSafe` exactly where it is the safe form of no text: where an escape is not
/// upper-case, stands for a character that stays, or gives no UTF-8, and where a character stands unescaped that needs
/// an escape.
pub fn unsafe_of(alloc: Global, text: &str) -> Result<String, SafeError>
    ensures ok { IfOk result (λ found. safe_form (chars (string_bytes found)) ≡ chars text.now) }
    ensures refused { IsErrOf result SafeError.NotSafe → (found : List ℕ) → safe_form found ≢ chars text.now }
{
    let mut bytes = Vec::new(alloc);
    let Ok(()) = percent_decode_str(text).append_to(&mut bytes) else {
        return Err(SafeError::Memory);
    };
    let Ok(found) = String::from_utf8(bytes) else {
        return Err(SafeError::NotSafe);
    };
    let Ok(form) = safe(alloc, found.as_str()) else {
        return Err(SafeError::Memory);
    };
    if form.as_str() == text {
        Ok(found)
    } else {
        Err(SafeError::NotSafe)
    }
}
