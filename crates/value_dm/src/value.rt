ghost use Rattle.std.specs.Prelude.{◌≡◌};
ghost use Rattle.value_dm.specs.Kinds.{kind_of};

use crate::bytes::Bytes;
use crate::calendar::{Date, DateTime, Time};
use crate::copies::TryCopy;
use crate::decimal::Decimal;
use crate::kind::Kind;
use crate::sequence::Sequence;
use crate::text::Text;
use std::alloc::{AllocError, Global};

/// A value of one of the eight kinds. Two values are equal where kind and value are equal, so the
/// integer 1 and the decimal 1 differ. The order is by kind, then by value.
#[derive(PartialEq, Eq, PartialOrd, Ord, Drop)]
pub enum Value {
    Text(Text),
    Integer(i64),
    Decimal(Decimal),
    Boolean(bool),
    Date(Date),
    Time(Time),
    DateTime(DateTime),
    Binary(Bytes),
}

/// What a row has in a column: a value, or NULL.
pub type Cell = Option<Value>;

/// The cells of a row in the order of its columns.
pub type Cells = Sequence<Cell>;

impl Value {
    /// The kind of the value.
    pub fn kind(&self) -> Kind
        ensures { result ≡ kind_of self.now }
    {
        match self {
            Value::Text(_) => Kind::Text,
            Value::Integer(_) => Kind::Integer,
            Value::Decimal(_) => Kind::Decimal,
            Value::Boolean(_) => Kind::Boolean,
            Value::Date(_) => Kind::Date,
            Value::Time(_) => Kind::Time,
            Value::DateTime(_) => Kind::DateTime,
            Value::Binary(_) => Kind::Binary,
        }
    }
}

impl TryCopy for Value {
    fn copy(&self, alloc: Global) -> Result<Value, AllocError> {
        Ok(match self {
            Value::Text(text) => Value::Text(text.copy(alloc)?),
            Value::Integer(number) => Value::Integer(*number),
            Value::Decimal(number) => Value::Decimal(*number),
            Value::Boolean(truth) => Value::Boolean(*truth),
            Value::Date(date) => Value::Date(*date),
            Value::Time(time) => Value::Time(*time),
            Value::DateTime(both) => Value::DateTime(*both),
            Value::Binary(bytes) => Value::Binary(bytes.copy(alloc)?),
        })
    }
}
