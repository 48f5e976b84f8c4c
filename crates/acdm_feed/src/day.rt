//! The text of an instant, by its day and its minute of the day.
ghost use Rattle.std.specs.Prelude.{◌≡◌, ◌+◌, ◌<◌, ◌≤◌, ◌++◌, ◌∷◌, ◌^◌, [], true, IfSome, codes};
ghost use Rattle.std.specs.Fmt.{decimal};
ghost use Rattle.std.specs.List.{list_all};
ghost use Rattle.json.specs.Run.{is_plain};
ghost use Rattle.acdm_feed.specs.Days.{begin_text, rest_text};
ghost use Rattle.acdm_feed.specs.Minutes.{date_text, day_text, two_digits};

use crate::minute::{day_of_year, year_of_era};

/// A day, as many days after 1970-01-01 as its number, with its date as it begins the text of an instant:
/// `"2025-02-20T`.
#[derive(Clone, Copy)]
pub(crate) struct Day {
    pub(crate) number: u32,
    pub(crate) begin: [u8; 12],
    ghost text: { begin ≡ begin_text number },
    ghost plain: { list_all is_plain (day_text number) ≡ true },
}

impl Day {
    /// 1970-01-01.
    pub(crate) fn first() -> Day
        ensures { result.number ≡ 0 }
    {
        Day {
            number: 0,
            begin: *b"\"1970-01-01T",
        }
    }

    /// The day of this number, where its year has four digits; this day itself, where it is that.
    #[inline(always)]
    pub(crate) fn turned(&self, number: u32) -> Option<Day>
        ensures { IfSome result (λ day. day.number ≡ number) }
    {
        if self.number == number {
            return Some(*self);
        }
        day_of(number)
    }

    /// The same, or this day where there is none.
    pub(crate) fn followed(self, number: u32) -> Day {
        match self.turned(number) {
            Some(day) => day,
            None => self,
        }
    }
}

// The day of this number.
#[cold]
#[inline(never)]
fn day_of(number: u32) -> Option<Day>
    ensures { IfSome result (λ day. day.number ≡ number) }
{
    let since = u64::from(number) + 719_468;
    let day = since % 146_097;
    let year = year_of_era(day);
    match begin_of(since / 146_097, year, day_of_year(day, year)) {
        Some(begin) => Some(Day { number, begin }),
        None => None,
    }
}

// The beginning of the text of an instant on this day of the year, of this year of this era, where the calendar's year
// has four digits.
fn begin_of(era: u64, year: u64, day: u64) -> Option<[u8; 12]>
    requires era_bound { era < 2 ^ 32 }
    requires year_bound { year < 400 }
    requires day_bound { day < 366 }
    ensures text { IfSome result (λ begin. begin ≡ 34 ∷ (date_text era year day ++ 84 ∷ [])) }
    ensures plain { IfSome result (λ _. list_all is_plain (date_text era year day) ≡ true) }
{
    let month = (5 * day + 2) / 153;
    let later = if month < 10 { 0 } else { 1 };
    let calendar_year = 400 * era + year + later;
    if calendar_year < 1_000 {
        return None;
    }
    if calendar_year >= 10_000 {
        return None;
    }
    let number = if month < 10 { month + 3 } else { month - 9 };
    Some(begin_by(calendar_year, number, day - (153 * month + 2) / 5 + 1))
}

// The same by the date's numbers.
fn begin_by(year: u64, month: u64, day: u64) -> [u8; 12]
    requires least { 1000 ≤ year }
    requires four { year < 10000 }
    requires month_bound { month < 100 }
    requires day_bound { day < 100 }
    ensures text { result
        ≡ 34 ∷ ((decimal year ++ (45 ∷ two_digits month ++ (45 ∷ two_digits day))) ++ 84 ∷ []) }
    ensures plain { list_all is_plain (decimal year ++ (45 ∷ two_digits month ++ (45 ∷ two_digits day)))
        ≡ true }
{
    let tens = year / 10;
    let hundreds = tens / 10;
    [
        b'"',
        b'0' + (hundreds / 10) as u8,
        b'0' + (hundreds % 10) as u8,
        b'0' + (tens % 10) as u8,
        b'0' + (year % 10) as u8,
        b'-',
        b'0' + (month / 10) as u8,
        b'0' + (month % 10) as u8,
        b'-',
        b'0' + (day / 10) as u8,
        b'0' + (day % 10) as u8,
        b'T',
    ]
}

/// The rest of the text of an instant, by its minute of the day.
#[inline(always)]
pub(crate) fn rest_of(minute: u32) -> [u8; 10]
    requires { minute < 1440 }
    ensures { result ≡ rest_text minute }
{
    let hour = (minute / 60) as u8;
    let minute = (minute % 60) as u8;
    [
        b'0' + hour / 10,
        b'0' + hour % 10,
        b':',
        b'0' + minute / 10,
        b'0' + minute % 10,
        b':',
        b'0',
        b'0',
        b'Z',
        b'"',
    ]
}
