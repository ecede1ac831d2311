ghost use Rattle.std.specs.Prelude.{◌≡◌};

use crate::{Column, ForeignDraft, ShapeTable};
use value_dm::{Names, Text};

/// A type whose values are told apart by a key.
pub trait KeyedBy<K> {
    ghost key_of: { Self → K };

    fn key(&self) -> &K
        ensures { result.now ≡ key_of self.now };
}

impl KeyedBy<Text> for Column {
    ghost key_of = { λ column. column.name };

    fn key(&self) -> &Text {
        &self.name
    }
}

impl KeyedBy<Text> for ShapeTable {
    ghost key_of = { λ table. table.name };

    fn key(&self) -> &Text {
        &self.name
    }
}

impl KeyedBy<Names> for Names {
    ghost key_of = { λ names. names };

    fn key(&self) -> &Names {
        self
    }
}

impl KeyedBy<Names> for ForeignDraft {
    ghost key_of = { λ foreign. foreign.columns };

    fn key(&self) -> &Names {
        &self.columns
    }
}
