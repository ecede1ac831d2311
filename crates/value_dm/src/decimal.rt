ghost use Rattle.std.specs.Prelude.{◌≡◌, ◌%◌, ◌^◌, ◌<◌, ◌≤◌, ◌↔◌, unsigned_abs, IsSome, IfSome};
ghost use Rattle.value_dm.specs.Decimals.{IsDecimal};

// The least number of 39 digits.
pub const DIGITS_LIMIT: u128 = 100_000_000_000_000_000_000_000_000_000_000_000_000;

/// A decimal number of at most 38 digits: the coefficient divided by 10 to the power of the scale.
///
/// A scale other than 0 stands beside a coefficient that 10 doesn't divide, so equal numbers are
/// equal decimals. The order is by coefficient and then by scale, and isn't that of the numbers.
#[derive(Clone, Copy, Debug, PartialEq, Eq, PartialOrd, Ord)]
pub struct Decimal {
    pub coefficient: i128,
    /// The number of fraction digits, 0 to 38.
    pub scale: u8,
    pub ghost in_digits: { unsigned_abs coefficient < 10 ^ 38 },
    pub ghost in_scale: { scale ≤ 38 },
    pub ghost shortest: { 0 < scale → 0 < unsigned_abs coefficient % 10 },
}

impl Decimal {
    /// The decimal of this coefficient and scale. None exactly where the coefficient has more than
    /// 38 digits, the scale is above 38, or the last of one or more fraction digits is 0.
    pub fn new(coefficient: i128, scale: u8) -> Option<Decimal>
        ensures lawful { IsSome result ↔ IsDecimal coefficient scale }
        ensures value { IfSome result (λ made. (made.coefficient ≡ coefficient) × (made.scale ≡ scale)) }
    {
        let digits = coefficient.unsigned_abs();
        if digits >= DIGITS_LIMIT || scale > 38 || (scale > 0 && digits % 10 == 0) {
            return None;
        }
        Some(Decimal { coefficient, scale })
    }
}
