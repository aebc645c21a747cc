// Dates and times as numbers: ddmmyyyy and hhmmss.
#![tactic(auto)]

ghost use Rattle.std.specs.Prelude.{◌≡◌};
ghost use Rattle.calendar.specs.Calendar.{leap_year, days_in, valid_date, valid_time, before, later};

// Whether a year has a 29 February.
pub fn leap_year(y: u64) -> bool
    ensures { result ≡ leap_year y }
{
    ((y % 4 == 0) & (y % 100 != 0)) | (y % 400 == 0)
}

// How many days a month of a year has.
pub fn days_in(m: u64, y: u64) -> u64
    ensures { result ≡ days_in m y }
{
    match m {
        2 if leap_year(y) => 29,
        2 => 28,
        4 | 6 | 9 | 11 => 30,
        _ => 31,
    }
}

// Whether a number is a date, read as ddmmyyyy.
pub fn valid_date(n: u64) -> bool
    ensures { result ≡ valid_date n }
{
    let d = n / 1000000;
    let m = n / 10000 % 100;
    let y = n % 10000;
    (1900 <= y) & (1 <= m) & (m <= 12) & (1 <= d) & (d <= days_in(m, y))
}

// Whether a number is a time, read as hhmmss.
pub fn valid_time(n: u64) -> bool
    ensures { result ≡ valid_time n }
{
    (n / 10000 <= 23) & (n / 100 % 100 <= 59) & (n % 100 <= 59)
}

// Whether date a comes before date b in the calendar: by year, month and day.
pub fn date_before(a: u64, b: u64) -> bool
    ensures { result ≡ before a b }
{
    (a % 10000, a / 10000 % 100, a / 1000000) < (b % 10000, b / 10000 % 100, b / 1000000)
}

// Whether a date and time, taken together, are later than a second of a day.
pub fn moment_later(date: u64, time: u64, day: u64, second: u64) -> bool
    ensures { result ≡ later date time day second }
{
    date_before(day, date) | ((date == day) & (second < time))
}
