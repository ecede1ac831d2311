ghost use Rattle.std.specs.Prelude.{◌≡◌};
ghost use Rattle.std.specs.List.{fold};
ghost use Rattle.query_rows_dm.specs.Keys.{fed_date, fed_time};

use std::hash::{Hash, Hasher};
use value_dm::{Date, Time, Value};

/// A value of a table, which is told apart from others by its kind and by itself.
#[derive(Clone, Copy)]
pub struct Key<'a> {
    pub value: &'a Value,
}

impl PartialEq for Key<'_> {
    ghost use Rattle.std.specs.Cmp.{on_per, partial_equiv_from_equiv};
    ghost use Rattle.query_rows_dm.specs.Keys.{same_value, value_equivalence};

    ghost eq = { λ a b. same_value a.value.now b.value.now };

    ghost laws = { on_per (λ a. a.value.now) (partial_equiv_from_equiv value_equivalence) };

    fn eq(&self, other: &Self) -> bool {
        *self.value == *other.value
    }
}

impl Eq for Key<'_> {
    ghost use Rattle.std.specs.Cmp.{on_equiv};
    ghost use Rattle.query_rows_dm.specs.Keys.{value_equivalence};

    ghost laws = { on_equiv (λ a. a.value.now) value_equivalence };
}

fn hash_date<H: Hasher>(date: &Date, state: &mut H)
    ensures { state.new ≡ fold H.write state.old (fed_date date.now) }
{
    date.year.hash(state);
    date.month.hash(state);
    date.day.hash(state);
}

fn hash_time<H: Hasher>(time: &Time, state: &mut H)
    ensures { state.new ≡ fold H.write state.old (fed_time time.now) }
{
    time.hour.hash(state);
    time.minute.hash(state);
    time.second.hash(state);
    time.nanosecond.hash(state);
}

impl Hash for Key<'_> {
    ghost use Rattle.query_rows_dm.specs.Keys.{fed_value, values_alike};

    ghost hash_input = { λ a. fed_value a.value.now };

    ghost respects_eq = { λ a b e. values_alike a.value.now b.value.now e };

    fn hash<H: Hasher>(&self, state: &mut H) {
        match self.value {
            Value::Text(text) => text.hash(state),
            Value::Integer(number) => number.hash(state),
            Value::Decimal(number) => {
                number.coefficient.hash(state);
                number.scale.hash(state);
            }
            Value::Boolean(truth) => truth.hash(state),
            Value::Date(date) => hash_date(date, state),
            Value::Time(time) => hash_time(time, state),
            Value::DateTime(both) => {
                hash_date(&both.date, state);
                hash_time(&both.time, state);
            }
            Value::Binary(bytes) => bytes.as_slice().hash(state),
        }
    }
}
