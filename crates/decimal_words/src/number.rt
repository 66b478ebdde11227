ghost use Rattle.std.specs.Prelude.{◌≡◌, ◌≤◌, min, IsTrue, IfSome};
ghost use Rattle.std.specs.List.{list_all};
ghost use Rattle.std.specs.Char.{is_ascii_digit};
ghost use Rattle.std.specs.Str.Parse.{digits_value};
ghost use Rattle.handheld_http.specs.Heads.{is_number as spells_number};
ghost use Rattle.handheld_http.specs.Requests.{decimal_in, has_leading_zero as begins_with_zero};

/// The number that a decimal without leading zeros spells, if it is at most `greatest`.
pub fn number_in(greatest: u16, text: &str) -> Option<u16>
    ensures value { result ≡ decimal_in greatest text.now }
    ensures range { IfSome result (λ number. number ≤ greatest) }
{
    match long_number_in(u32::from(greatest), text) {
        Some(number) => Some(number as u16),
        None => None,
    }
}

/// The same, with a maximum of 32 bits.
#[tactic(auto, unfolding(handheld_http::specs::Requests::decimal_in))]
pub fn long_number_in(greatest: u32, text: &str) -> Option<u32>
    ensures value { result ≡ decimal_in greatest text.now }
    ensures range { IfSome result (λ number. number ≤ greatest) }
{
    let digits = text.as_bytes();
    if !is_number(digits) || has_leading_zero(digits) {
        return None;
    }
    let number = number_of(digits);
    if number > u64::from(greatest) {
        return None;
    }
    Some(number as u32)
}

/// Whether a zero stands in front of other digits.
fn has_leading_zero(text: &[u8]) -> bool
    ensures value { result ≡ begins_with_zero text.now }
{
    text.len() > 1 && text[0] == b'0'
}

/// Whether the text is one or more decimal digits.
fn is_number(text: &[u8]) -> bool
    ensures value { result ≡ spells_number text.now }
{
    !text.is_empty() && are_digits(text)
}

/// Whether each byte is a decimal digit.
fn are_digits(text: &[u8]) -> bool
    ensures value { result ≡ list_all is_ascii_digit text.now }
{
    text.iter().all(|b| b.is_ascii_digit())
}

/// The number that digits write, or 4,294,967,296 where it is greater.
fn number_of(digits: &[u8]) -> u64
    requires { IsTrue (list_all is_ascii_digit digits.now) }
    ensures value { result ≡ min 4_294_967_296 (digits_value 10 digits.now) }
{
    let mut number = 0;
    for digit in digits {
        number = (10 * number + u64::from(*digit - b'0')).min(4_294_967_296);
    }
    number
}
