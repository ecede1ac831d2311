ghost use Rattle.std.specs.Prelude.{◌≡◌, ◌≢◌, List, ℕ, Err, IfOk};
ghost use Rattle.value_dm.specs.Reading.{hex_digits_of};
ghost use Rattle.value_dm.specs.Spelling.{SpellsBinary};

use crate::bytes::Bytes;
use crate::errors::ValueError;
use hex::FromHexError;
use std::alloc::Global;

// The bytes that the text spells.
pub fn read_binary(alloc: Global, text: &[u8]) -> Result<Bytes, ValueError>
    ensures ok { IfOk result (SpellsBinary text.now) }
    ensures bad { result ≡ Err ValueError.BadValue → (bytes : List ℕ) → ¬ SpellsBinary text.now bytes }
{
    match hex::decode(alloc, hex_digits(text)) {
        Ok(bytes) => Ok(Bytes::from_vec(bytes)),
        Err(error) => Err(value_error(error)),
    }
}

// The digits of the text.
fn hex_digits(text: &[u8]) -> &[u8]
    ensures { result.now ≡ hex_digits_of text.now }
{
    if text.len() >= 2 && text[0] == b'\\' && text[1] == b'x' {
        &text[2..]
    } else {
        text
    }
}

fn value_error(error: FromHexError) -> ValueError
    ensures { result ≡ ValueError.BadValue → error ≢ FromHexError.OutOfMemory }
{
    match error {
        FromHexError::OutOfMemory => ValueError::Memory,
        _ => ValueError::BadValue,
    }
}
