ghost use Rattle.std.specs.Prelude.{◌≡◌, ◌↔◌, IsSome, IfSome};
ghost use Rattle.value_dm.specs.Calendar.{IsCalendarDate, IsTimeOfDay};

use jiff::civil;

/// A date of the Gregorian calendar, which holds for all years here (ISO 8601).
#[derive(Clone, Copy, Debug, PartialEq, Eq, PartialOrd, Ord)]
pub struct Date {
    /// 1 to 9999.
    pub year: u16,
    /// 1 to 12.
    pub month: u8,
    /// From 1.
    pub day: u8,
    pub ghost exists: { IsCalendarDate year month day },
}

impl Date {
    /// The date of this year, month and day. None exactly where there is none in the years 1 to 9999.
    pub fn new(year: u16, month: u8, day: u8) -> Option<Date>
        ensures exists { IsSome result ↔ IsCalendarDate year month day }
        ensures value { IfSome result (λ made. (made.year ≡ year) × (made.month ≡ month) × (made.day ≡ day)) }
    {
        if year < 1 || year > 9999 || month > 12 || day > 31 {
            return None;
        }
        if civil::Date::new(year as i16, month as i8, day as i8).is_err() {
            return None;
        }
        Some(Date { year, month, day })
    }
}

/// A time of a day, without a time zone and without leap seconds (ISO 8601).
#[derive(Clone, Copy, Debug, PartialEq, Eq, PartialOrd, Ord)]
pub struct Time {
    /// 0 to 23.
    pub hour: u8,
    /// 0 to 59.
    pub minute: u8,
    /// 0 to 59.
    pub second: u8,
    /// 0 to 999,999,999.
    pub nanosecond: u32,
    pub ghost exists: { IsTimeOfDay hour minute second nanosecond },
}

impl Time {
    /// The time of this hour, minute, second and nanosecond. None exactly where one of them is past
    /// 23, 59, 59 or 999,999,999.
    pub fn new(hour: u8, minute: u8, second: u8, nanosecond: u32) -> Option<Time>
        ensures exists { IsSome result ↔ IsTimeOfDay hour minute second nanosecond }
        ensures value { IfSome result (λ made. (made.hour ≡ hour) × (made.minute ≡ minute) × (made.second ≡ second) × (made.nanosecond ≡ nanosecond)) }
    {
        if hour > 23 || minute > 59 || second > 59 || nanosecond > 999_999_999 {
            return None;
        }
        Some(Time {
            hour,
            minute,
            second,
            nanosecond,
        })
    }
}

/// A date and a time of that day.
#[derive(Clone, Copy, Debug, PartialEq, Eq, PartialOrd, Ord)]
pub struct DateTime {
    pub date: Date,
    pub time: Time,
}
