ghost use Rattle.std.specs.Prelude.{◌≡◌, ◌≢◌, ◌⊎◌, ◌↔◌, IsTrue, ◌++◌, List, ℕ, MatchOption};
ghost use Rattle.value_dm.specs.Lexical.{clock_text, date_text};
ghost use Rattle.value_dm.specs.Spelling.{SpellsDateTime, SpellsFraction, SpellsTime};
ghost use Rattle.value_dm.specs.declared.calendar.Date.{Date as DateValue};
ghost use Rattle.value_dm.specs.declared.calendar.DateTime.{DateTime as DateTimeValue};
ghost use Rattle.value_dm.specs.declared.calendar.Time.{Time as TimeValue};

use crate::calendar::{Date, DateTime, Time};
use crate::digits::{number_of, take_three};
use crate::number::split_fraction;

// The date that the text is.
pub fn read_date(text: &[u8]) -> Option<Date>
    ensures { MatchOption result ((d : DateValue) → text.now ≢ date_text d) (λ d. text.now ≡ date_text d) }
{
    let Some((date, rest)) = take_date(text) else {
        return None;
    };
    if rest.len() > 0 {
        return None;
    }
    Some(date)
}

// The time that the text spells.
pub fn read_time(text: &[u8]) -> Option<Time>
    ensures { MatchOption result ((t : TimeValue) → ¬ SpellsTime text.now t) (SpellsTime text.now) }
{
    let Some((hour, minute, second, rest)) = take_three(text, 2, b':') else {
        return None;
    };
    let Some(nanosecond) = read_nanoseconds(rest) else {
        return None;
    };
    match Time::new(hour as u8, minute as u8, second as u8, nanosecond) {
        Some(time) => Some(time),
        None => None,
    }
}

// The date and time that the text spells.
pub fn read_date_time(text: &[u8]) -> Option<DateTime>
    ensures { MatchOption result ((d : DateTimeValue) → ¬ SpellsDateTime text.now d) (SpellsDateTime text.now) }
{
    let Some((date, rest)) = take_date(text) else {
        return None;
    };
    if rest.len() == 0 {
        return None;
    }
    if !is_separator(rest[0]) {
        return None;
    }
    match read_time(&rest[1..]) {
        Some(time) => Some(DateTime { date, time }),
        None => None,
    }
}

// The date at the front of the text, and what follows it.
fn take_date(text: &[u8]) -> Option<(Date, &[u8])>
    ensures { MatchOption result
        ((d : DateValue) (rest : List ℕ) → text.now ≢ date_text d ++ rest)
        (λ read. text.now ≡ date_text read.0 ++ read.1.now) }
{
    let Some((year, month, day, rest)) = take_three(text, 4, b'-') else {
        return None;
    };
    match Date::new(year as u16, month as u8, day as u8) {
        Some(date) => Some((date, rest)),
        None => None,
    }
}

// The nanoseconds that the fraction of a second spells.
fn read_nanoseconds(text: &[u8]) -> Option<u32>
    ensures { MatchOption result ((n : ℕ) → ¬ SpellsFraction text.now n) (SpellsFraction text.now) }
{
    if text.len() == 0 {
        return Some(0);
    }
    let Some(digits) = split_fraction(text) else {
        return None;
    };
    if digits.len() == 0 {
        return None;
    }
    if digits.len() > 9 {
        return None;
    }
    match number_of(digits) {
        Some(number) => Some(number * 10u32.pow(9 - digits.len() as u32)),
        None => None,
    }
}

fn is_separator(byte: u8) -> bool
    ensures { IsTrue result ↔ ((byte ≡ 84) ⊎ (byte ≡ 32)) }
{
    byte == b'T' || byte == b' '
}
