ghost use Rattle.std.specs.Prelude.{◌≡◌, ◌↔◌, IsTrue};

use crate::bytes::Bytes;
use crate::calendar::{Date, DateTime, Time};
use crate::decimal::Decimal;
use crate::kind::Kind;
use crate::sequence::Sequence;
use crate::text::Text;
use crate::value::Value;

/// A type whose `==` says exactly whether two values are the same for contracts.
pub trait ExactEq: Eq {
    ghost use Rattle.value_dm.specs.Equality.{DecidesEqual};

    ghost decides: { DecidesEqual Self.eq };
}

impl ExactEq for Text {
    ghost use Rattle.value_dm.specs.Equality.{numbers_decide};

    ghost decides = { numbers_decide };
}

impl ExactEq for Bytes {
    ghost use Rattle.value_dm.specs.Equality.{numbers_decide};

    ghost decides = { numbers_decide };
}

impl<T: ExactEq> ExactEq for Sequence<T> {
    ghost use Rattle.value_dm.specs.Equality.{lists_decide};

    ghost decides = { lists_decide T.decides };
}

impl ExactEq for Kind {
    ghost use Rattle.std.proofs.Common.{rules};

    ghost decides = { Prim.search rules };
}

impl ExactEq for Decimal {
    ghost use Rattle.std.proofs.Common.{rules};
    ghost use Rattle.value_dm.specs.Sameness.{decimal_same};

    ghost decides = { Prim.search (rules, decimal_same) };
}

impl ExactEq for Date {
    ghost use Rattle.std.proofs.Common.{rules};
    ghost use Rattle.value_dm.specs.Sameness.{date_same};

    ghost decides = { Prim.search (rules, date_same) };
}

impl ExactEq for Time {
    ghost use Rattle.std.proofs.Common.{rules};
    ghost use Rattle.value_dm.specs.Sameness.{time_same};

    ghost decides = { Prim.search (rules, time_same) };
}

impl ExactEq for DateTime {
    ghost use Rattle.std.proofs.Common.{rules};
    ghost use Rattle.value_dm.specs.Sameness.{date_same, date_times_decide, time_same};

    ghost decides = { date_times_decide {f = ⟦<Date as PartialEq>⟧.eq} {g = ⟦<Time as PartialEq>⟧.eq}
        (Prim.search (rules, date_same)) (Prim.search (rules, time_same)) };
}

impl ExactEq for Value {
    ghost use Rattle.value_dm.specs.ValueEquality.{values_decide};

    ghost decides = { values_decide };
}

impl<T: ExactEq> ExactEq for Option<T> {
    ghost use Rattle.std.proofs.Common.{rules};

    ghost decides = { Prim.search (rules, T.decides) };
}

/// Whether two values are equal.
pub fn same<T: ExactEq>(a: &T, b: &T) -> bool
    ensures { IsTrue result ↔ (a.now ≡ b.now) }
{
    a == b
}
