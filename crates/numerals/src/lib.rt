// What a word says: a number, or a date.
#![tactic(auto)]

ghost use Rattle.std.specs.Prelude.{◌≡◌, ◌-◌, ◌^◌};
ghost use Rattle.numerals.specs.Words.{size_in, number_in, date_in};

// A date as it is written. Whether the calendar has that day is not asked.
#[derive(Clone, Copy, Debug, PartialEq, Eq)]
pub struct Day {
    pub year: u32,
    pub month: u32,
    pub day: u32,
}

// The value of a word of digits, if there are some and nothing else, and it fits.
fn size_in(word: &[u8]) -> Option<u64>
    ensures { result ≡ size_in (2 ^ 64 - 1) word.now }
{
    if word.is_empty() {
        return None;
    }
    let mut value: u64 = 0;
    for &byte in word {
        if !byte.is_ascii_digit() {
            return None;
        }
        let shifted = value.checked_mul(10)?;
        value = shifted.checked_add(u64::from(byte - b'0'))?;
    }
    Some(value)
}

// The whole word as a number from -2^63 to 2^63 - 1: digits, with or without a minus before them.
pub fn number_in(word: &[u8]) -> Option<i64>
    ensures { result ≡ number_in word.now }
{
    match word.strip_prefix(b"-") {
        Some(digits) => 0i64.checked_sub_unsigned(size_in(digits)?),
        None => i64::try_from(size_in(word)?).ok(),
    }
}

// The whole word as a date, YYYY-MM-DD.
pub fn date_in(word: &[u8]) -> Option<Day>
    ensures { result ≡ date_in word.now }
{
    if word.len() != 10 || word[4] != b'-' || word[7] != b'-' {
        return None;
    }
    let year = size_in(&word[..4])? as u32;
    let month = size_in(&word[5..7])? as u32;
    let day = size_in(&word[8..10])? as u32;
    Some(Day { year, month, day })
}
