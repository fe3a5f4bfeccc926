// Whether a number is a day (document 01, 'Lines'): eight digits, year, month, day, 2000 to 2099, real calendar dates.
#![tactic(auto)]

ghost use Rattle.std.specs.Prelude.{◌≡◌, get_or};
ghost use Rattle.meaning.specs.Forms.{months, month_length, is_day};

// The lengths of the months of a common year, January's at 1.
static MONTHS: [u32; 13] = [0, 31, 28, 31, 30, 31, 30, 31, 31, 30, 31, 30, 31];

fn common_month(month: u32) -> u32
    ensures { result ≡ get_or months month 0 }
{
    MONTHS.get(month as usize).copied().unwrap_or(0)
}

// A year is leap when 4 divides it.
fn month_length(year: u32, month: u32) -> u32
    ensures { result ≡ month_length year month }
{
    if month == 2 && year % 4 == 0 {
        29
    } else {
        common_month(month)
    }
}

// Whether year × 10000 + month × 100 + day is a real calendar date from 2000 to 2099.
pub fn is_day(n: u32) -> bool
    ensures { result ≡ is_day n }
{
    let year = n / 10000;
    let month = n / 100 % 100;
    let day = n % 100;
    (2000..=2099).contains(&year)
        && (1..=12).contains(&month)
        && (1..=month_length(year, month)).contains(&day)
}
