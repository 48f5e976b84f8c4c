//! Minutes as texts.
ghost use Rattle.std.specs.Prelude.{◌≡◌, ◌+◌, ◌≤◌, ◌<◌, ◌++◌, ◌∷◌, []};
ghost use Rattle.std.specs.Fmt.{decimal};
ghost use Rattle.arrayvec.specs.ArrayString.{array_string_len};
ghost use Rattle.acdm_feed.specs.Minutes.{clock_text, date_in_era, date_text, day_number};
ghost use Rattle.acdm_feed.specs.Minutes.{day_of_year, day_text, minute_text, two_digits};
ghost use Rattle.acdm_feed.specs.Minutes.{year_of_era};

use arrayvec::ArrayString;
use itoa::Buffer;

/// The text of a minute since 1970-01-01T00:00Z, as `2025-02-20T07:00:00Z`.
#[tactic(auto, unfolding(crate::specs::Minutes::minute_text))]
pub(crate) fn minute_text(minute: u32) -> ArrayString<48>
    ensures { result.bytes ≡ minute_text minute }
{
    let mut text = ArrayString::new();
    push_day(&mut text, u64::from(minute / 1_440));
    push_clock(&mut text, u64::from(minute % 1_440));
    text
}

fn push_byte(text: &mut ArrayString<48>, byte: u8)
    requires ascii { byte < 128 }
    requires room { array_string_len text.old < 48 }
    ensures text { text.new.bytes ≡ text.old.bytes ++ byte ∷ [] }
    ensures len { array_string_len text.new ≡ array_string_len text.old + 1 }
{
    text.push(byte as char);
}

// Adds a number below 100 in two digits.
fn push_two(text: &mut ArrayString<48>, number: u64)
    requires bound { number < 100 }
    requires room { array_string_len text.old + 2 ≤ 48 }
    ensures text { text.new.bytes ≡ text.old.bytes ++ two_digits number }
    ensures len { array_string_len text.new ≡ array_string_len text.old + 2 }
{
    push_byte(text, b'0' + (number / 10) as u8);
    push_byte(text, b'0' + (number % 10) as u8);
}

fn push_number(text: &mut ArrayString<48>, number: u64)
    requires room { array_string_len text.old + 20 ≤ 48 }
    ensures text { text.new.bytes ≡ text.old.bytes ++ decimal number }
    ensures len { array_string_len text.new ≤ array_string_len text.old + 20 }
{
    let mut digits = Buffer::new();
    text.push_str(digits.format(number));
}

// Adds the date so many days after 1970-01-01.
fn push_day(text: &mut ArrayString<48>, day: u64)
    requires bound { day < 4_000_000 }
    requires empty { array_string_len text.old ≡ 0 }
    ensures text { text.new.bytes ≡ text.old.bytes ++ day_text day }
    ensures len { array_string_len text.new ≤ 26 }
{
    let since = day + 719_468;
    push_in_era(text, since / 146_097, since % 146_097);
}

fn push_in_era(text: &mut ArrayString<48>, era: u64, day: u64)
    requires bound { era < 40 }
    requires day_bound { day < 146_097 }
    requires empty { array_string_len text.old ≡ 0 }
    ensures text { text.new.bytes ≡ text.old.bytes ++ date_in_era era day }
    ensures len { array_string_len text.new ≤ 26 }
{
    let year = year_of_era(day);
    push_date(text, era, year, day_of_year(day, year));
}

// The year of an era on its day.
pub(crate) fn year_of_era(day: u64) -> u64
    requires { day < 146_097 }
    ensures value { result ≡ year_of_era day }
    ensures bound { result < 400 }
{
    (day - day / 1_460 + day / 36_524 - day / 146_096) / 365
}

// The day of a year of an era.
pub(crate) fn day_of_year(day: u64, year: u64) -> u64
    requires day_bound { day < 146_097 }
    requires year_is { year ≡ year_of_era day }
    ensures value { result ≡ day_of_year day year }
    ensures bound { result < 366 }
{
    day - (365 * year + year / 4 - year / 100)
}

// The date with this day of the year, of this year of this era.
fn push_date(text: &mut ArrayString<48>, era: u64, year: u64, day: u64)
    requires era_bound { era < 40 }
    requires year_bound { year < 400 }
    requires day_bound { day < 366 }
    requires empty { array_string_len text.old ≡ 0 }
    ensures text { text.new.bytes ≡ text.old.bytes ++ date_text era year day }
    ensures len { array_string_len text.new ≤ 26 }
{
    let month = (5 * day + 2) / 153;
    let later = if month < 10 { 0 } else { 1 };
    push_number(text, 400 * era + year + later);
    push_byte(text, b'-');
    push_two(text, if month < 10 { month + 3 } else { month - 9 });
    push_byte(text, b'-');
    push_two(text, day - (153 * month + 2) / 5 + 1);
}

// Adds the time of day of a minute of a day.
fn push_clock(text: &mut ArrayString<48>, minute: u64)
    requires bound { minute < 1_440 }
    requires room { array_string_len text.old + 10 ≤ 48 }
    ensures { text.new.bytes ≡ text.old.bytes ++ clock_text minute }
{
    push_byte(text, b'T');
    push_two(text, minute / 60);
    push_byte(text, b':');
    push_two(text, minute % 60);
    text.push_str(":00Z");
}
