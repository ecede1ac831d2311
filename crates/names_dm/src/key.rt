ghost use Rattle.std.specs.Prelude.{◌≡◌, ◌++◌, List, ℕ, IfOk, OnOk, chars};
ghost use Rattle.names_dm.specs.Rows.{AreLawful, RowsApart, SameKinds, key_list, key_pair, row_iri};
ghost use Rattle.names_dm.specs.declared.key.KeyPart.{KeyPart as AnyPart};
ghost use Rattle.value_dm.specs.Lawful.{IsLawful};

use crate::base::Base;
use crate::iri::Iri;
use crate::makers::mark_before;
use crate::spelling::Spelling;
use std::alloc::{AllocError, Global};
use value_dm::{Sequence, Text, TryCopy, Value, lexical};

/// A column of a key, and its value in a row.
#[derive(PartialEq, Eq, Drop)]
pub struct KeyPart {
    pub column: Text,
    pub value: Value,
}

/// The columns of a key in its order, with their values in a row.
pub type KeyParts = Sequence<KeyPart>;

impl TryCopy for KeyPart {
    fn copy(&self, alloc: Global) -> Result<KeyPart, AllocError> {
        Ok(KeyPart {
            column: self.column.copy(alloc)?,
            value: self.value.copy(alloc)?,
        })
    }
}

// The text with a column and its value after it, `=` between them.
fn with_part(alloc: Global, spelling: Spelling, part: &KeyPart) -> Result<Spelling, AllocError>
    ensures text { IfOk result (λ longer. longer ≡ spelling ++ key_pair part.now) }
    ensures lawful { OnOk result (IsLawful part.now.value) }
{
    let form = lexical(alloc, &part.value)?;
    let longer = spelling
        .with_safe(part.column.as_str())?
        .with("=")?
        .with_safe(form.as_str())?;
    Ok(longer)
}

// The text with the parts of a key after it, semicolons between them.
fn with_key(alloc: Global, spelling: Spelling, key: &KeyParts) -> Result<Spelling, AllocError>
    ensures text { IfOk result (λ longer. longer ≡ spelling ++ key_list key.now) }
    ensures lawful { OnOk result (AreLawful key.now) }
{
    let mut spelling = spelling;
    let mut first = true;
    for part in key.as_slice() {
        spelling = with_part(alloc, spelling.with(mark_before(first))?, part)?;
        first = false;
    }
    Ok(spelling)
}

/// The IRI of a row: its table's, `/` and the columns of the key in its order, each with `=` and the safe form of its
/// value's lexical form, semicolons between them. Two rows whose values have the same kinds, place by place, share an
/// IRI only where table and key are the same. Refused for want of memory alone.
pub fn row_iri(alloc: Global, base: &Base, table: &str, key: &KeyParts) -> Result<Iri, AllocError>
    ensures text { IfOk result (λ iri. iri ≡ row_iri base.now (chars table.now) key.now) }
    ensures apart { IfOk result (λ iri. (other : List ℕ) (others : List AnyPart) → AreLawful others → SameKinds others key.now →
        row_iri base.now other others ≡ iri → (other ≡ chars table.now) × (others ≡ key.now)) }
    ensures rows { OnOk result (RowsApart base.now) }
{
    let start = Spelling::new(alloc, base)?.with_safe(table)?.with("/")?;
    let whole = with_key(alloc, start, key)?;
    let iri = whole.into_iri(alloc)?;
    Ok(iri)
}
