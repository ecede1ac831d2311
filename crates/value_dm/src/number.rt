ghost use Rattle.std.specs.Prelude.{◌≡◌, ◌≢◌, Bool, ◌++◌, ◌^◌, ◌<◌, List, ℕ, ℤ, MatchOption};
ghost use Rattle.std.specs.Str.Parse.{AllDigits};
ghost use Rattle.value_dm.specs.Spelling.{IsNumberText, IsPoint, IsSameNumber, SpellsDecimal, SpellsInteger, signed};
ghost use Rattle.value_dm.specs.declared.decimal.Decimal.{Decimal as DecimalValue};

use crate::decimal::Decimal;
use crate::digits::{append_digits, split_digits, split_sign, without_end_zeros};

// The 64-bit integer that the text spells.
pub fn read_integer(text: &str) -> Option<i64>
    ensures { MatchOption result ((z : ℤ) → ¬ SpellsInteger text.now z) (SpellsInteger text.now) }
{
    match text.parse() {
        Ok(number) => Some(number),
        Err(_) => None,
    }
}

// The decimal that the text spells.
pub fn read_decimal(text: &[u8]) -> Option<Decimal>
    ensures { MatchOption result ((d : DecimalValue) → ¬ SpellsDecimal text.now d) (SpellsDecimal text.now) }
{
    let Some((negative, whole, fraction)) = split_number(text) else {
        return None;
    };
    match decimal_of(negative, whole, fraction) {
        Some(decimal) => Some(decimal),
        None => None,
    }
}

// Whether the number is negative, its digits and those of its fraction.
fn split_number(text: &[u8]) -> Option<(bool, &[u8], &[u8])>
    ensures { MatchOption result
        ((negative : Bool) (whole fraction : List ℕ) → ¬ IsNumberText text.now negative whole fraction)
        (λ parts. IsNumberText text.now parts.0 parts.1.now parts.2.now) }
{
    let (negative, unsigned) = split_sign(text);
    let (whole, rest) = split_digits(unsigned);
    let Some(fraction) = split_fraction(rest) else {
        return None;
    };
    if whole.len() + fraction.len() == 0 {
        return None;
    }
    Some((negative, whole, fraction))
}

// The digits after a point. None where there is anything else.
pub fn split_fraction(text: &[u8]) -> Option<&[u8]>
    ensures { MatchOption result
        ((point fraction : List ℕ) → IsPoint point fraction → AllDigits 10 fraction → text.now ≢ point ++ fraction)
        (λ digits. (point : List ℕ) × IsPoint point digits.now × AllDigits 10 digits.now × (text.now ≡ point ++ digits.now)) }
{
    if text.is_empty() {
        return Some(text);
    }
    if text[0] != b'.' {
        return None;
    }
    let (digits, rest) = split_digits(&text[1..]);
    if rest.is_empty() { Some(digits) } else { None }
}

// The decimal of these digits. None where none is that number.
fn decimal_of(negative: bool, whole: &[u8], fraction: &[u8]) -> Option<Decimal>
    requires whole { AllDigits 10 whole.now }
    requires fraction { AllDigits 10 fraction.now }
    ensures { MatchOption result
        ((d : DecimalValue) → ¬ IsSameNumber negative whole.now fraction.now d)
        (IsSameNumber negative whole.now fraction.now) }
{
    let kept = without_end_zeros(fraction);
    if kept.len() > 38 {
        return None;
    }
    let Some(integral) = append_digits(0, whole) else {
        return None;
    };
    let Some(number) = append_digits(integral, kept) else {
        return None;
    };
    Some(Decimal {
        coefficient: signed_number(negative, number),
        scale: kept.len() as u8,
    })
}

fn signed_number(negative: bool, number: u128) -> i128
    requires { number < 10 ^ 38 }
    ensures { result ≡ signed negative number }
{
    if negative {
        -(number as i128)
    } else {
        number as i128
    }
}
