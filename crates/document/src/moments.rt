// Which of two dates is the earlier (document 01, "Dates"; document 02, Wish 3).
ghost use Rattle.std.specs.Prelude.{◌≡◌};
ghost use Rattle.document.specs.Date.{day_at};
ghost use Rattle.document.specs.Moments.{written_day, written_if, in_written_order, days_of_years, days_of_months, day_number, minutes_behind, instant, in_order};
ghost use Rattle.document.specs.Untable.{date_of, zone_of};

use crate::dates;
use crate::table::Date;

// A day as a number that grows with it.
fn written_day(year: u16, month: u8, day: u8) -> u64
    ensures { result ≡ written_day (day_at year month day) }
{
    (year as u64 * 100 + month as u64) * 100 + day as u64
}

// 0 where the date is absent.
fn written(d: Date) -> u64
    ensures { result ≡ written_if (date_of d) }
{
    match d {
        Date::Absent => 0,
        Date::Bare { year, month, day } => written_day(year, month, day),
        Date::Moment {
            year,
            month,
            day,
            second: _,
            west: _,
            zone: _,
        } => written_day(year, month, day),
    }
}

fn in_written_order(from: Date, to: Date) -> bool
    ensures { result ≡ in_written_order (date_of from) (date_of to) }
{
    match to {
        Date::Absent => true,
        _ => written(from) <= written(to),
    }
}

// Every 4th year is a leap year, but of every 100th only every 400th.
fn days_of_years(year: u16) -> u64
    ensures { result ≡ days_of_years year }
{
    let y = year as u64;
    y * 365 + (y + 3) / 4 - (y + 99) / 100 + (y + 399) / 400
}

fn days_of_months(year: u16, month: u8) -> u64
    ensures { result ≡ days_of_months year month }
{
    let mut days: u64 = 0;
    let mut m: u8 = 0;
    while m < month {
        days += dates::days_in(year as u64, m as u64);
        m += 1;
    }
    days
}

fn day_number(year: u16, month: u8, day: u8) -> u64
    ensures { result ≡ day_number (day_at year month day) }
{
    days_of_years(year) + days_of_months(year, month) + day as u64
}

// How far clocks are behind those of +14:00.
fn minutes_behind(west: bool, zone: u16) -> u64
    ensures { result ≡ minutes_behind (zone_of west zone) }
{
    if west {
        return 840 + zone as u64;
    }
    if 840 < zone {
        return 0;
    }
    840 - zone as u64
}

fn instant(year: u16, month: u8, day: u8, second: u32, west: bool, zone: u16) -> u64
    ensures { result ≡ instant (day_at year month day) second (zone_of west zone) }
{
    day_number(year, month, day) * 86400 + second as u64 + minutes_behind(west, zone) * 60
}

// "When both dtFrom and dtTo carry a time, compare the moments."
pub fn in_order(from: Date, to: Date) -> bool
    ensures { result ≡ in_order (date_of from) (date_of to) }
{
    let Date::Moment {
        year,
        month,
        day,
        second,
        west,
        zone,
    } = from
    else {
        return in_written_order(from, to);
    };
    let start = instant(year, month, day, second, west, zone);
    match to {
        Date::Moment {
            year,
            month,
            day,
            second,
            west,
            zone,
        } => start <= instant(year, month, day, second, west, zone),
        _ => in_written_order(from, to),
    }
}
