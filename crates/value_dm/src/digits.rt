ghost use Rattle.std.specs.Prelude.{◌≡◌, ◌≢◌, ℕ, ◌++◌, ◌∷◌, [], ◌^◌, ◌<◌, ◌≤◌, List, length, MatchOption, replicate};
ghost use Rattle.std.specs.Str.Parse.{AllDigits, digits_value, digits_value_after, starts_with_minus, without_leading_sign};
ghost use Rattle.value_dm.specs.Digits.{fixed_digits};
ghost use Rattle.value_dm.specs.Reading.{BeginsWithNoDigit, three_numbers_onto};

use crate::decimal::DIGITS_LIMIT;

// Whether a minus stands first, and what follows a sign.
pub fn split_sign(text: &[u8]) -> (bool, &[u8])
    ensures negative { result.0 ≡ starts_with_minus text.now }
    ensures rest { result.1.now ≡ without_leading_sign text.now }
{
    match text {
        [b'-', rest @ ..] => (true, rest),
        [b'+', rest @ ..] => (false, rest),
        _ => (false, text),
    }
}

// The digits at the front, and what follows them.
pub fn split_digits(text: &[u8]) -> (&[u8], &[u8])
    ensures parts { text.now ≡ result.0.now ++ result.1.now }
    ensures digits { AllDigits 10 result.0.now }
    ensures ends { BeginsWithNoDigit result.1.now }
{
    for (i, byte) in text.iter().enumerate() {
        if !byte.is_ascii_digit() {
            return (&text[..i], &text[i..]);
        }
    }
    (text, &text[text.len()..])
}

// The digits without the zeros at their end.
pub fn without_end_zeros(digits: &[u8]) -> &[u8]
    ensures zeros { (count : ℕ) × (digits.now ≡ result.now ++ replicate count 48) }
    ensures ends { (front : List ℕ) → result.now ≢ front ++ 48 ∷ [] }
{
    let mut end = digits.len();
    while end > 0 && digits[end - 1] == b'0' {
        end -= 1;
    }
    &digits[..end]
}

// The number that the digits write after those of `number`. None where it has more than 38 digits.
pub fn append_digits(number: u128, digits: &[u8]) -> Option<u128>
    requires all { AllDigits 10 digits.now }
    requires fits { number < 10 ^ 38 }
    ensures { MatchOption result (10 ^ 38 ≤ digits_value_after 10 number digits.now)
        (λ appended. (appended ≡ digits_value_after 10 number digits.now) × (appended < 10 ^ 38)) }
{
    let mut appended = number;
    for byte in digits {
        if appended >= DIGITS_LIMIT / 10 {
            return None;
        }
        appended = appended * 10 + (*byte - b'0') as u128;
    }
    Some(appended)
}

// The number that the digits write. None where one of them is no digit.
pub fn number_of(digits: &[u8]) -> Option<u32>
    requires { length digits.now ≤ 9 }
    ensures { MatchOption result (¬ AllDigits 10 digits.now)
        (λ number. AllDigits 10 digits.now × (number ≡ digits_value 10 digits.now) × (number < 10 ^ length digits.now)) }
{
    let (read, other) = split_digits(digits);
    if other.len() > 0 {
        return None;
    }
    match append_digits(0, read) {
        Some(number) => Some(number as u32),
        None => None,
    }
}

// The number of the first digits, so many as `count`, and what follows them.
pub fn take_number(text: &[u8], count: usize) -> Option<(u32, &[u8])>
    requires { count ≤ 9 }
    ensures { MatchOption result
        ((n : ℕ) (rest : List ℕ) → n < 10 ^ count → text.now ≢ fixed_digits count n ++ rest)
        (λ read. (read.0 < 10 ^ count) × (text.now ≡ fixed_digits count read.0 ++ read.1.now)) }
{
    if text.len() < count {
        return None;
    }
    match number_of(&text[..count]) {
        Some(number) => Some((number, &text[count..])),
        None => None,
    }
}

// The number of the two digits behind the separator, and what follows them.
pub fn take_pair(text: &[u8], separator: u8) -> Option<(u32, &[u8])>
    ensures { MatchOption result
        ((n : ℕ) (rest : List ℕ) → n < 100 → text.now ≢ separator ∷ (fixed_digits 2 n ++ rest))
        (λ read. (read.0 < 100) × (text.now ≡ separator ∷ (fixed_digits 2 read.0 ++ read.1.now))) }
{
    if text.len() == 0 {
        return None;
    }
    if text[0] != separator {
        return None;
    }
    match take_number(&text[1..], 2) {
        Some(read) => Some(read),
        None => None,
    }
}

// A number of so many digits and two numbers of two, each of these behind the separator, and what follows them.
pub fn take_three(text: &[u8], count: usize, separator: u8) -> Option<(u32, u32, u32, &[u8])>
    requires { count ≤ 9 }
    ensures { MatchOption result
        ((a b c : ℕ) (rest : List ℕ) → a < 10 ^ count → b < 100 → c < 100 →
        text.now ≢ three_numbers_onto count separator a b c rest)
        (λ read.
        (read.0 < 10 ^ count) × (read.1 < 100) × (read.2 < 100)
        × (text.now ≡ three_numbers_onto count separator read.0 read.1 read.2 read.3.now)) }
{
    let Some((first, behind_first)) = take_number(text, count) else {
        return None;
    };
    let Some((second, behind_second)) = take_pair(behind_first, separator) else {
        return None;
    };
    match take_pair(behind_second, separator) {
        Some((third, rest)) => Some((first, second, third, rest)),
        None => None,
    }
}
