//! Days and clocks, in UTC.
#![tactic(auto, using(log_model::proofs::PrefixLemmas::adding, crate::proofs::TextLemmas::puts_quoted))]

ghost use Rattle.std.specs.Prelude.{◌≡◌, [], ◌++◌, ◌≤◌, ◌<◌, ◌+◌, ◌*◌, ◌-◌, ◌%◌, codes, length, replicate, decimal};
ghost use Rattle.std.specs.List.{flat_map, slice_index_or};
ghost use Rattle.log_model.specs.Adding.{Puts};
ghost use Rattle.vsl_decimal.specs.Decimal.{scale};
ghost use Rattle.ncsa_format.specs.Civil.{clock_text, month_names, padded, part_text, time_text};
ghost use Rattle.ncsa_format.specs.Value.{last_second};
ghost use Rattle.ncsa_format.specs.Line.{quoted};
ghost use Rattle.ncsa_format.specs.inside.Moment.{IsMoment};

use crate::formatter::{TimeForm, TimePart};
use crate::quoted::{put_byte, put_plain, put_quoted};
use itoa::Buffer;
use jiff::Timestamp;
use jiff::tz::Offset;
use log_model::NoMemory;

/// The last second that is printed.
pub(crate) const LAST_SECOND: u64 = 253_402_000_000;

/// Units of a time in a second.
const SECOND: u128 = 1_000_000_000_000_000_000;

/// Units in a millisecond.
const MILLI: u128 = 1_000_000_000_000_000;

/// Units in a microsecond.
const MICRO: u128 = 1_000_000_000_000;

/// The names of the months, in order.
static MONTHS: [&[u8]; 12] = [
    b"Jan", b"Feb", b"Mar", b"Apr", b"May", b"Jun", b"Jul", b"Aug", b"Sep", b"Oct", b"Nov", b"Dec",
];

/// A second since the epoch, and its day.
#[derive(Clone, Copy)]
struct Moment {
    second: u64,
    year: u64,
    month: u64,
    day: u64,
}

/// The moment of a second.
fn moment_of(second: u64) -> Moment
    requires { second ≤ last_second }
    ensures second { result.second ≡ second }
    ensures day { IsMoment result }
{
    let Ok(timestamp) = Timestamp::from_second(second as i64) else {
        unreachable!()
    };
    let civil = Offset::UTC.to_datetime(timestamp);
    Moment {
        second,
        year: civil.year() as u64,
        month: civil.month() as u64,
        day: civil.day() as u64,
    }
}

/// Adds a number.
pub(crate) fn put_number(out: &mut Vec<u8>, n: u64) -> Result<(), NoMemory>
    ensures { Puts result out.old.items out.new.items (quoted (decimal n)) }
{
    let mut buffer = Buffer::new();
    put_quoted(out, buffer.format(n).as_bytes())
}

/// Adds a number with a byte before it, as many times as fill its columns.
fn put_padded(out: &mut Vec<u8>, fill: u8, columns: usize, n: u64) -> Result<(), NoMemory>
    requires { columns ≤ 6 }
    ensures { Puts result out.old.items out.new.items
        (quoted (replicate (columns - length (decimal n)) fill ++ decimal n)) }
{
    let mut buffer = Buffer::new();
    let digits = buffer.format(n).as_bytes();
    put_quoted(out, &[fill; 6][..columns.saturating_sub(digits.len())])?;
    put_quoted(out, digits)
}

/// The last digit of a number.
fn last_digit(n: u64) -> u8
    ensures { result ≡ 48 + n % 10 }
{
    b'0' + (n % 10) as u8
}

/// Adds a number in two digits.
fn put_two(out: &mut Vec<u8>, n: u64) -> Result<(), NoMemory>
    requires { n < 100 }
    ensures { Puts result out.old.items out.new.items (quoted (padded 2 n)) }
{
    out.extend_from_slice(&[last_digit(n / 10), last_digit(n)])?;
    Ok(())
}

/// Adds a number in four digits.
fn put_four(out: &mut Vec<u8>, n: u64) -> Result<(), NoMemory>
    requires { n < 10_000 }
    ensures { Puts result out.old.items out.new.items (quoted (padded 4 n)) }
{
    out.extend_from_slice(&[
        last_digit(n / 1_000),
        last_digit(n / 100),
        last_digit(n / 10),
        last_digit(n),
    ])?;
    Ok(())
}

/// Adds a date, as `2023-01-02`.
fn put_date(out: &mut Vec<u8>, year: u64, month: u64, day: u64) -> Result<(), NoMemory>
    requires { (year < 10_000) × (month < 100) × (day < 100) }
    ensures { Puts result out.old.items out.new.items (quoted (padded 4 year ++ codes "-" ++ padded 2 month ++ codes "-" ++ padded 2 day)) }
{
    put_four(out, year)?;
    put_plain(out, b"-")?;
    put_two(out, month)?;
    put_plain(out, b"-")?;
    put_two(out, day)
}

/// Adds the clock at a second, as `03:04:05`.
fn put_clock(out: &mut Vec<u8>, second: u64) -> Result<(), NoMemory>
    ensures { Puts result out.old.items out.new.items (quoted (clock_text second)) }
{
    let hour = second / 3600 % 24;
    let minute = second / 60 % 60;
    let second = second % 60;
    out.extend_from_slice(&[
        last_digit(hour / 10),
        last_digit(hour),
        b':',
        last_digit(minute / 10),
        last_digit(minute),
        b':',
        last_digit(second / 10),
        last_digit(second),
    ])?;
    Ok(())
}

/// The name of a month, as `Jan`.
fn month_name(month: u64) -> &'static [u8]
    requires { (1 ≤ month) × (month ≤ 12) }
    ensures { result.now ≡ slice_index_or month_names (month - 1) [] }
{
    MONTHS[month as usize - 1]
}

/// Adds a part of a time.
fn put_part(out: &mut Vec<u8>, moment: &Moment, part: TimePart) -> Result<(), NoMemory>
    requires { IsMoment moment.now }
    ensures { Puts result out.old.items out.new.items (quoted (part_text moment.now.second part)) }
{
    match part {
        TimePart::Byte(b) => put_byte(out, b),
        TimePart::Year => put_four(out, moment.year),
        TimePart::Month => put_two(out, moment.month),
        TimePart::Day => put_two(out, moment.day),
        TimePart::SpacedDay => put_padded(out, b' ', 2, moment.day),
        TimePart::Hour => put_two(out, moment.second / 3600 % 24),
        TimePart::Minute => put_two(out, moment.second / 60 % 60),
        TimePart::Second => put_two(out, moment.second % 60),
        TimePart::MonthName => put_quoted(out, month_name(moment.month)),
        TimePart::Date => put_date(out, moment.year, moment.month, moment.day),
        TimePart::Clock => put_clock(out, moment.second),
        TimePart::Zone => put_plain(out, b"+0000"),
    }
}

/// Adds the parts of a time at a second.
pub(crate) fn put_parts(out: &mut Vec<u8>, second: u64, parts: &[TimePart]) -> Result<(), NoMemory>
    requires { second ≤ last_second }
    ensures { Puts result out.old.items out.new.items
        (quoted (flat_map (part_text second) parts.now)) }
{
    let moment = moment_of(second);
    for part in parts {
        put_part(out, &moment, *part)?;
    }
    Ok(())
}

/// Adds a time in a form. Times are counted in units of 10^-18 seconds.
pub(crate) fn put_time(out: &mut Vec<u8>, time: u128, form: &TimeForm) -> Result<(), NoMemory>
    requires { time ≤ last_second * scale }
    ensures { Puts result out.old.items out.new.items (quoted (time_text form.now time)) }
{
    match form {
        TimeForm::Seconds => put_number(out, (time / SECOND) as u64),
        TimeForm::Millis => put_number(out, (time / MILLI) as u64),
        TimeForm::Micros => put_number(out, (time / MICRO) as u64),
        TimeForm::MillisPart => put_padded(out, b'0', 3, (time / MILLI % 1_000) as u64),
        TimeForm::MicrosPart => put_padded(out, b'0', 6, (time / MICRO % 1_000_000) as u64),
        TimeForm::Text(parts) => put_parts(out, (time / SECOND) as u64, parts.as_slice()),
    }
}
