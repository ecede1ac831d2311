ghost use Rattle.std.specs.Prelude.{◌≡◌, ◌≢◌, Err, IfOk, chars};
ghost use Rattle.value_dm.specs.Kinds.{kind_of};
ghost use Rattle.value_dm.specs.Lawful.{IsLawful};
ghost use Rattle.value_dm.specs.Lexical.{lexical_form};
ghost use Rattle.value_dm.specs.declared.value.Value.{Value as AnyValue};

use crate::canonical::{lexical, read_value};
use crate::errors::{LexicalError, ValueError};
use crate::kind::Kind;
use crate::value::Value;
use std::alloc::Global;

/// The value of the kind whose canonical lexical form is the text. A text is the form of one value of a kind at most.
///
/// - `NotCanonical` exactly where no value of the kind has this form.
/// - `Memory` for want of memory.
pub fn read_lexical(alloc: Global, kind: Kind, text: &str) -> Result<Value, LexicalError>
    ensures ok { IfOk result (λ v. (kind_of v ≡ kind) × (lexical_form v ≡ chars text.now) × IsLawful v) }
    ensures bad { result ≡ Err LexicalError.NotCanonical →
        (v : AnyValue) → IsLawful v → kind_of v ≡ kind → lexical_form v ≢ chars text.now }
    ensures one { (first second : AnyValue) → IsLawful first → IsLawful second → kind_of first ≡ kind → kind_of second ≡ kind →
        lexical_form first ≡ chars text.now → lexical_form second ≡ chars text.now → first ≡ second }
{
    let value = match read_value(alloc, kind, text) {
        Ok(value) => value,
        Err(ValueError::BadValue) => return Err(LexicalError::NotCanonical),
        Err(ValueError::Memory) => return Err(LexicalError::Memory),
    };
    let form = match lexical(alloc, &value) {
        Ok(form) => form,
        Err(_) => return Err(LexicalError::Memory),
    };
    if form.as_str() != text {
        return Err(LexicalError::NotCanonical);
    }
    Ok(value)
}
