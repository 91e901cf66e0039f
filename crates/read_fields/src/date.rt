// Dates and times of day by the bytes that they are written with (document 01, "Dates").
ghost use Rattle.std.specs.Prelude.{◌≡◌, ◌+◌, ◌≤◌, drop};
ghost use Rattle.document.specs.Date.{two, clock, seconds, moment_of};
ghost use Rattle.read_fields.specs.Dates.{IsDate, IsDateOf, IsTime};
ghost use Rattle.read_fields.specs.DateParts.{marked, Numbers, year as year_of, DayOf, day_read, zone_of, in_zone, Small};

use document::dates::is_day;
use document::table::Date;

// A calendar day.
#[derive(Clone, Copy)]
pub struct Day {
    pub year: u64,
    pub month: u64,
    pub day: u64,
}

// The two digits at a place of some bytes.
fn pair_at(bytes: &[u8], at: usize) -> Option<u64>
    ensures { Numbers bytes.now (two (drop at bytes.now)) (at + 2) 99 result }
{
    match bytes.get(at..)? {
        [tens @ b'0'..=b'9', units @ b'0'..=b'9', ..] => {
            Some(u64::from(*tens - b'0') * 10 + u64::from(*units - b'0'))
        }
        _ => None,
    }
}

fn is_at(bytes: &[u8], at: usize, mark: u8) -> bool
    ensures { result ≡ marked mark (drop at bytes.now) }
{
    bytes.get(at) == Some(&mark)
}

// yyyy
fn year_at(bytes: &[u8]) -> Option<u64>
    ensures { Numbers bytes.now (year_of bytes.now) 4 9999 result }
{
    let century = pair_at(bytes, 0)?;
    let year = pair_at(bytes, 2)?;
    Some(century * 100 + year)
}

// yyyy-mm-dd
fn day_of(bytes: &[u8]) -> Option<Day>
    ensures { DayOf bytes.now result }
{
    let year = year_at(bytes)?;
    let month = pair_at(bytes, 5)?;
    let day = pair_at(bytes, 8)?;
    if is_at(bytes, 4, b'-') && is_at(bytes, 7, b'-') && is_day(year, month, day) {
        return Some(Day { year, month, day });
    }
    None
}

// hh:mm at a place, below 24:00, in minutes.
fn clock_at(bytes: &[u8], at: usize) -> Option<u64>
    requires { at ≤ 20 }
    ensures { Numbers bytes.now (clock (drop at bytes.now)) (at + 5) 1439 result }
{
    let hour = pair_at(bytes, at)?;
    let minute = pair_at(bytes, at + 3)?;
    if is_at(bytes, at + 2, b':') && hour <= 23 && minute <= 59 {
        return Some(hour * 60 + minute);
    }
    None
}

// :ss at a place, behind so many minutes, in seconds.
fn seconds_at(bytes: &[u8], at: usize, minutes: u64) -> Option<u64>
    requires { (at ≤ 20) × (minutes ≤ 1439) }
    ensures { Numbers bytes.now (seconds (record { value = minutes; rest = drop at bytes.now })) (at + 3) 86399 result }
{
    let second = pair_at(bytes, at + 1)?;
    if is_at(bytes, at, b':') && second <= 59 {
        return Some(minutes * 60 + second);
    }
    None
}

// hh:mm:ss, or hh:mm, which stands for second 00.
pub(crate) fn time_of(bytes: &[u8]) -> Option<u64>
    ensures { IsTime bytes.now result }
{
    let minutes = clock_at(bytes, 0)?;
    if bytes.len() == 5 {
        return Some(minutes * 60);
    }
    let second = seconds_at(bytes, 5, minutes)?;
    if bytes.len() == 8 {
        return Some(second);
    }
    None
}

// The day with a time and a zone, of at most 14:00 either way: -00:00 is stored as +00:00.
fn zoned(sign: u8, day: Day, second: u64, zone: u64) -> Option<Date>
    requires { Small day × (second ≤ 86399) × (zone ≤ 1439) }
    ensures { IsDateOf (in_zone (day_read day) second (zone_of sign zone)) result }
{
    if 840 < zone {
        return None;
    }
    let west = match sign {
        b'+' => false,
        b'-' => zone != 0,
        _ => return None,
    };
    Some(Date::Moment {
        year: day.year as u16,
        month: day.month as u8,
        day: day.day as u8,
        second: second as u32,
        west,
        zone: zone as u16,
    })
}

// Thh:mm:ss and +hh:mm or -hh:mm, behind a day.
fn moment_of(bytes: &[u8], day: Day) -> Option<Date>
    requires { Small day }
    ensures { IsDateOf (moment_of (day_read day) (drop 10 bytes.now)) result }
{
    let minutes = clock_at(bytes, 11)?;
    let second = seconds_at(bytes, 16, minutes)?;
    let zone = clock_at(bytes, 20)?;
    if bytes.len() != 25 || !is_at(bytes, 10, b'T') {
        return None;
    }
    zoned(bytes[19], day, second, zone)
}

// yyyy-mm-dd, or that and Thh:mm:ss and +hh:mm or -hh:mm.
pub(crate) fn date_of(bytes: &[u8]) -> Option<Date>
    ensures { IsDate bytes.now result }
{
    let day = day_of(bytes)?;
    if bytes.len() == 10 {
        return Some(Date::Bare {
            year: day.year as u16,
            month: day.month as u8,
            day: day.day as u8,
        });
    }
    moment_of(bytes, day)
}
