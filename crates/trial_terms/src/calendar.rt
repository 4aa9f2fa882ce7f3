// The Gregorian calendar by year, month and day, and days as the numbers that a call takes: year × 10,000 + month × 100 + day.
use trial::cells::{plus, wide};

pub fn day_number(y: usize, m: usize, d: usize) -> u32 {
    (10000 * (y % 10000) + 100 * (m % 100) + d % 100) as u32
}

fn year(n: u32) -> usize {
    wide(n) / 10000
}

fn month(n: u32) -> usize {
    wide(n) / 100 % 100
}

fn day(n: u32) -> usize {
    wide(n) % 100
}

// Of the years that end a century every fourth, of the others every fourth.
fn leap(y: usize) -> bool {
    if y % 100 == 0 {
        y / 100 % 4 == 0
    } else {
        y % 4 == 0
    }
}

fn month_length(y: usize, m: usize) -> usize {
    match m {
        2 => if leap(y) { 29 } else { 28 },
        4 | 6 | 9 | 11 => 30,
        _ => 31,
    }
}

// "a Gregorian date from 1900-01-01 to 2199-12-31".
pub fn is_date(y: usize, m: usize, d: usize) -> bool {
    (1900 <= y) & (y <= 2199) & (1 <= m) & (m <= 12) & (1 <= d) & (d <= month_length(y, m))
}

pub fn is_day(n: u32) -> bool {
    is_date(year(n), month(n), day(n))
}

pub fn next_day(n: u32) -> u32 {
    let y = year(n);
    let m = month(n);
    let d = day(n);
    if d < month_length(y, m) {
        return day_number(y, m, plus(d, 1));
    }
    if m < 12 {
        day_number(y, plus(m, 1), 1)
    } else {
        day_number(plus(y, 1), 1, 1)
    }
}

// The day that comes so many days later.
pub fn later(n: u32, by: usize) -> u32 {
    let mut now = n;
    for _ in 0..by {
        now = next_day(now);
    }
    now
}

// By year, then month, then day.
pub fn no_later(a: u32, b: u32) -> bool {
    if year(a) != year(b) {
        return year(a) < year(b);
    }
    if month(a) != month(b) {
        return month(a) < month(b);
    }
    day(a) <= day(b)
}
