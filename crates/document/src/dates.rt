// The calendar (document 01, "Dates").
ghost use Rattle.std.specs.Prelude.{◌≡◌};
ghost use Rattle.document.specs.Date.{leap, days_in, day_at, is_day};

#[tactic(auto, unfolding(crate::specs::Date::leap))]
fn is_leap(year: u64) -> bool
    ensures { result ≡ leap year }
{
    year % 4 == 0 && (year % 100 != 0 || year % 400 == 0)
}

// Real Gregorian days: how many a month has, by its number; 0 where there is no such month.
#[tactic(auto, using(crate::proofs::Calendar::no_month), unfolding(crate::specs::Date::days_in))]
pub fn days_in(year: u64, month: u64) -> u64
    ensures { result ≡ days_in year month }
{
    match month {
        1 | 3 | 5 | 7 | 8 | 10 | 12 => 31,
        4 | 6 | 9 | 11 => 30,
        2 if is_leap(year) => 29,
        2 => 28,
        _ => 0,
    }
}

// Years 1900 to 2199.
#[tactic(auto, unfolding(crate::specs::Date::is_day))]
pub fn is_day(year: u64, month: u64, day: u64) -> bool
    ensures { result ≡ is_day (day_at year month day) }
{
    1900 <= year && year <= 2199 && 1 <= day && day <= days_in(year, month)
}
