ghost use Rattle.std.specs.Prelude.{◌≡◌, ◌≤◌, IfSome, option_map};
ghost use Rattle.ldar_days.specs.Calendar.{IsDay};
ghost use Rattle.csv_rows.specs.Fields as spec;

use ldar_days::Day;

// The number that decimal digits spell, without a leading zero, if it is at most `high`.
fn decimal(text: &[u8], high: u32) -> Option<u32>
    requires { high ≤ 60_000 }
    ensures value { result ≡ spec.decimal text.now high }
{
    if text.is_empty() || (text[0] == b'0' && text.len() > 1) {
        return None;
    }
    digits(text, high)
}

// The number that decimal digits spell, if it is at most `high`.
fn digits(text: &[u8], high: u32) -> Option<u32>
    requires { high ≤ 60_000 }
    ensures value { result ≡ spec.digits text.now high }
{
    let mut number = 0;
    for byte in text {
        if !byte.is_ascii_digit() {
            return None;
        }
        number = 10 * number + u32::from(*byte - b'0');
        if number > high {
            return None;
        }
    }
    Some(number)
}

/// A number from `low` to `high`, in decimal digits without a leading zero.
#[tactic(auto, unfolding(crate::specs::Fields::number))]
pub fn number(field: Option<&[u8]>, low: u32, high: u32) -> Option<u32>
    requires { high ≤ 60_000 }
    ensures value { result ≡ spec.number low high (option_map (λ f. f.now) field.entry) }
    ensures in_range { IfSome result (λ n. (low ≤ n) × (n ≤ high)) }
{
    let number = decimal(field?, high)?;
    if low <= number { Some(number) } else { None }
}

/// A day as `YYYY-MM-DD`.
#[tactic(auto, unfolding(crate::specs::Fields::day))]
pub fn day(field: Option<&[u8]>) -> Option<Day>
    ensures value { result ≡ spec.day (option_map (λ f. f.now) field.entry) }
    ensures in_range { IfSome result IsDay }
{
    Day::read(field?)
}

/// Whether the field is this word.
pub fn holds(field: Option<&[u8]>, word: &str) -> bool
    ensures value { result ≡ spec.holds (option_map (λ f. f.now) field.entry) word.now }
{
    match field {
        Some(text) => text == word.as_bytes(),
        None => false,
    }
}
