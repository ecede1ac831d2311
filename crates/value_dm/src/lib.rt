//! Texts, bytes, lists and values, which every other crate speaks of.
#![tactic(auto)]

mod binary;
mod boolean;
mod bytes;
mod calendar;
mod calendar_text;
mod canonical;
mod copies;
mod decimal;
mod digits;
mod errors;
mod exact;
mod field;
mod forms;
mod kind;
mod mode;
mod number;
mod reading;
mod sequence;
mod text;
mod value;
mod writing;

pub use bytes::Bytes;
pub use calendar::{Date, DateTime, Time};
pub use canonical::lexical;
pub use copies::TryCopy;
pub use decimal::Decimal;
pub use errors::{LexicalError, ValueError};
pub use exact::{ExactEq, same};
pub use field::read_field;
pub use kind::Kind;
pub use mode::NullMode;
pub use reading::read_lexical;
pub use sequence::{AllocFailed, Sequence};
pub use text::Text;
pub use value::{Cell, Cells, Value};
pub use writing::field_text;

/// Texts in order.
pub type Names = Sequence<Text>;
