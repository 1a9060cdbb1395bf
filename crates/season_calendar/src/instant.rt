// Moments as text, by the civil calendar.
ghost use Rattle.std.specs.Prelude.{◌≡◌, ◌≢◌, ◌≤◌, ◌<◌, ◌+◌, ◌-◌, ◌/◌, ◌%◌, ◌↔◌, ℕ, List, pos, Some, IfSome, IfNone, IsSome, length, IsTrue};
ghost use Rattle.jiff_core.specs.Calendar.{days_from_civil};
ghost use Rattle.season_calendar.specs.declared.instant.Parts.{Parts};
ghost use Rattle.season_calendar.specs.Instants.{IsCivil, IsInstant, IsMomentOf, IsWritten, IsDay, HasMarks, HasDigits, text_of};
ghost use Rattle.jiff_core.specs.Date.{epoch_day};

use fpl_base::Moment;
use jiff::civil::Date;

const SECONDS_OF_A_DAY: u64 = 86_400;

// A civil date and time, of which each part is a number as it is written.
#[derive(Clone, Copy, Debug)]
struct Parts {
    year: u16,
    month: u8,
    day: u8,
    hour: u8,
    minute: u8,
    second: u8,
}

/// The moment of a text `YYYY-MM-DDTHH:MM:SSZ` that is a real date and time from 1970 to 9999, with seconds from 0 to
/// 59; `None` for every other text.
pub fn read_instant(text: &[u8]) -> Option<Moment>
    ensures { (t : ℕ) → (result ≡ Some t) ↔ IsInstant text.now t }
{
    moment_of(read_parts(text)?)
}

/// The text `YYYY-MM-DDTHH:MM:SSZ` of a moment.
pub fn instant_text(t: Moment) -> [u8; 20]
    ensures instant { IsInstant result t }
    ensures no_other { (text : List ℕ) → IsInstant text t → text ≡ result }
{
    write_parts(parts_of(t))
}

// The parts that a text of this form has.
fn read_parts(text: &[u8]) -> Option<Parts>
    ensures some { IfSome result (λ p. IsWritten p × (text.now ≡ text_of p)) }
    ensures none { IfNone result ((p : Parts) → IsWritten p → text.now ≢ text_of p) }
{
    if text.len() != 20 || !has_marks(text) {
        return None;
    }
    let century = read_digits(text, 0)?;
    let year = read_digits(text, 2)?;
    let month = read_digits(text, 5)?;
    let day = read_digits(text, 8)?;
    let hour = read_digits(text, 11)?;
    let minute = read_digits(text, 14)?;
    let second = read_digits(text, 17)?;
    Some(Parts {
        year: u16::from(century) * 100 + u16::from(year),
        month,
        day,
        hour,
        minute,
        second,
    })
}

// Whether what stands between the numbers of a text is right.
fn has_marks(text: &[u8]) -> bool
    requires { length text.now ≡ 20 }
    ensures { IsTrue result ↔ HasMarks text.now }
{
    text[4] == b'-'
        && text[7] == b'-'
        && text[10] == b'T'
        && text[13] == b':'
        && text[16] == b':'
        && text[19] == b'Z'
}

// The number of the two digits that stand at a place.
fn read_digits(text: &[u8], at: usize) -> Option<u8>
    requires { at + 1 < length text.now }
    ensures some { IfSome result (λ n. HasDigits text.now at n) }
    ensures none { IfNone result ((n : ℕ) → ¬ (HasDigits text.now at n)) }
{
    let tens = text[at];
    let ones = text[at + 1];
    if tens < b'0' || tens > b'9' || ones < b'0' || ones > b'9' {
        return None;
    }
    Some((tens - b'0') * 10 + (ones - b'0'))
}

// The moment of a civil date and time; `None` where the parts are none from 1970 to 9999.
fn moment_of(parts: Parts) -> Option<Moment>
    requires { IsWritten parts }
    ensures some { IfSome result (λ t. IsCivil parts × IsMomentOf parts t) }
    ensures none { IfNone result (¬ (IsCivil parts)) }
{
    if parts.year < 1970 || parts.hour > 23 || parts.minute > 59 || parts.second > 59 {
        return None;
    }
    let day = day_number(parts.year, parts.month, parts.day)?;
    let time = u64::from(parts.hour) * 3600
        + u64::from(parts.minute) * 60
        + u64::from(parts.second);
    Moment::new(u64::from(day) * SECONDS_OF_A_DAY + time)
}

// The number of a date's day, where 1970-01-01 is 0.
fn day_number(year: u16, month: u8, day: u8) -> Option<u32>
    requires from_1970 { 1970 ≤ year }
    requires to_9999 { year ≤ 9999 }
    requires month { month < 100 }
    requires day { day < 100 }
    ensures there { IsSome result ↔ IsDay year month day }
    ensures value { IfSome result
        (λ n. (days_from_civil (pos year) month day ≡ pos n) × (n ≤ 2932896)) }
{
    match Date::new(year as i16, month as i8, day as i8) {
        Ok(date) => Some(date.to_plain().to_unix_epoch_day() as u32),
        Err(_) => None,
    }
}

// The date and time of a moment.
fn parts_of(t: Moment) -> Parts
    ensures { IsCivil result × IsMomentOf result t }
{
    let seconds = t.get();
    let date = date_of((seconds / SECONDS_OF_A_DAY) as u32);
    let time = seconds % SECONDS_OF_A_DAY;
    Parts {
        year: date.year as u16,
        month: date.month,
        day: date.day,
        hour: (time / 3600) as u8,
        minute: (time / 60 % 60) as u8,
        second: (time % 60) as u8,
    }
}

// The date of a day by its number, where 1970-01-01 is 0.
fn date_of(day: u32) -> jiff_core::civil::Date
    requires { day ≤ 2932896 }
    ensures { epoch_day result ≡ pos day }
{
    match jiff_core::civil::Date::from_unix_epoch_day(i64::from(day)) {
        Ok(date) => date,
        Err(_) => unreachable!(),
    }
}

// The text of a date and time.
fn write_parts(parts: Parts) -> [u8; 20]
    requires { IsWritten parts }
    ensures { result ≡ text_of parts }
{
    let century = (parts.year / 100) as u8;
    let year = (parts.year % 100) as u8;
    [
        tens(century),
        ones(century),
        tens(year),
        ones(year),
        b'-',
        tens(parts.month),
        ones(parts.month),
        b'-',
        tens(parts.day),
        ones(parts.day),
        b'T',
        tens(parts.hour),
        ones(parts.hour),
        b':',
        tens(parts.minute),
        ones(parts.minute),
        b':',
        tens(parts.second),
        ones(parts.second),
        b'Z',
    ]
}

// The first digit of a number below 100.
fn tens(n: u8) -> u8
    requires { n < 100 }
    ensures { result ≡ 48 + n / 10 }
{
    b'0' + n / 10
}

// The second digit of a number.
fn ones(n: u8) -> u8
    ensures { result ≡ 48 + n % 10 }
{
    b'0' + n % 10
}
