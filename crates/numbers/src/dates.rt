// Dates as AAAAMMDD.
ghost use Rattle.std.specs.Prelude.{◌≡◌, Decides};
ghost use Rattle.numbers.specs.Dates.{leap, days_in, on_calendar, is_date, Date};

fn is_leap(year: u64) -> bool
    ensures { result ≡ leap year }
{
    year % 4 == 0 && (year % 100 != 0 || year % 400 == 0)
}

fn days_in(year: u64, month: u64) -> u64
    ensures { result ≡ days_in year month }
{
    match month {
        2 if is_leap(year) => 29,
        2 => 28,
        4 | 6 | 9 | 11 => 30,
        _ => 31,
    }
}

fn is_on_calendar(year: u64, month: u64, day: u64) -> bool
    ensures { result ≡ on_calendar year month day }
{
    matches!(year, 1900..=2999)
        && matches!(month, 1..=12)
        && (1..=days_in(year, month)).contains(&day)
}

// Whether a number is 0 or a day of the Gregorian calendar in the years 1900 to 2999.
pub fn is_date(number: u64) -> bool
    ensures test { result ≡ is_date number }
    ensures calendar { Decides result (Date number) }
{
    number == 0 || is_on_calendar(number / 10_000, number / 100 % 100, number % 100)
}
