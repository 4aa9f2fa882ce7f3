// Days: document 02, Paper 8. A day is year × 10,000 + month × 100 + day.
#![tactic(auto)]

ghost use Rattle.std.specs.Prelude.{◌≡◌, not};
ghost use Rattle.profile.specs.Lists.{any};
ghost use Rattle.terms.specs.Days.{day?, leap?, month_days as days_of_month};

use terms::{FIRST_YEAR, LAST_YEAR};

// Year y has a 29th of February.
fn leap(y: u32) -> bool
    ensures { result ≡ leap? y }
{
    if y % 4 != 0 {
        return false;
    }
    if y % 100 != 0 {
        return true;
    }
    y % 400 == 0
}

// The days of month m of year y; 0 where there is no such month.
fn month_days(y: u32, m: usize) -> u32
    ensures { result ≡ days_of_month y m }
{
    let february = if leap(y) { 29u32 } else { 28u32 };
    let days = [0u32, 31, february, 31, 30, 31, 30, 31, 31, 30, 31, 30, 31];
    if m < 13 { days[m] } else { 0 }
}

// The number is a date from 1900-01-01 to 2199-12-31.
fn is_day(n: u32) -> bool
    ensures { result ≡ day? n }
{
    let y = n / 10000;
    let m = n / 100 % 100;
    let d = n % 100;
    if y < FIRST_YEAR {
        return false;
    }
    if LAST_YEAR < y {
        return false;
    }
    if m < 1 {
        return false;
    }
    if 12 < m {
        return false;
    }
    if d < 1 {
        return false;
    }
    d <= month_days(y, m as usize)
}

// One of the numbers is no date.
pub fn has_bad_day(days: &[u32]) -> bool
    ensures { result ≡ any (λ d. not (day? d)) days.now }
{
    days.iter().any(|day| !is_day(*day))
}
