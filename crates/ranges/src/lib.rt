// The ranges of days, keys, codes and letters that stand in records.
#![tactic(auto)]

ghost use Rattle.std.specs.Prelude.{◌≡◌};
ghost use Rattle.meaning.specs.Forms.{holds, optional, code, day, is_word};
ghost use Rattle.meaning.specs.Sound.{days_fit, key_fits};

use days::is_day;
use places::RestrictionType;

// First is not after last.
#[tactic(auto, unfolding(meaning::specs::Forms::holds, meaning::specs::Sound::days_fit))]
pub fn days_fit(first: u32, last: u32) -> bool
    ensures { result ≡ days_fit first last }
{
    is_day(first) && is_day(last) && first <= last
}

// A day, or 0 for none. No other function asks it yet: the places of kept instructions are not tested.
#[tactic(auto, unfolding(meaning::specs::Forms::holds))]
pub fn day_or_none(n: u32) -> bool
    ensures { result ≡ holds (optional day) n }
{
    n == 0 || is_day(n)
}

#[tactic(auto, unfolding(meaning::specs::Forms::holds, meaning::specs::Sound::key_fits))]
pub fn key_fits(number: u8, object: u8) -> bool
    ensures { result ≡ key_fits number object }
{
    (1..=99).contains(&number)
        && (RestrictionType::INSTRUCTION..=RestrictionType::RESTRICTION).contains(&object)
}

// The number of three capital letters, and of four; its lowest byte is the last letter. By &: the proof takes the tests
// as one value.
pub fn three_letters(n: u32) -> bool
    ensures { result ≡ is_word 3 n }
{
    let [third, second, first, above] = n.to_le_bytes();
    let front = first.is_ascii_uppercase() & (above == 0);
    third.is_ascii_uppercase() & (second.is_ascii_uppercase() & front)
}

// Kept beside that of three: three letters ask of the byte above too, so one function would be told which bytes are
// letters and be no plainer.
pub fn four_letters(n: u32) -> bool
    ensures { result ≡ is_word 4 n }
{
    let [fourth, third, second, first] = n.to_le_bytes();
    let low = third.is_ascii_uppercase() && fourth.is_ascii_uppercase();
    first.is_ascii_uppercase() && second.is_ascii_uppercase() && low
}

// Attribute × 100 + value, each 1 to 99. Beside that of `line`: for one expression the reader of lines would need this
// crate, and `places` with it.
#[tactic(auto, unfolding(meaning::specs::Forms::holds))]
pub fn is_code(n: u32) -> bool
    ensures { result ≡ holds code n }
{
    (1..=99).contains(&(n / 100)) && (1..=99).contains(&(n % 100))
}
