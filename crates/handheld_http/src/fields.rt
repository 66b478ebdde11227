ghost use Rattle.std.specs.Prelude.{◌≡◌, ℕ, ◌≤◌, ◌<◌, length, map, min, All, count_by, find, Ok, Err, IsTrue, slice_range, Result, MatchResult, option_map};
ghost use Rattle.std.specs.List.{list_any, list_all};
ghost use Rattle.std.specs.Char.{is_ascii_digit};
ghost use Rattle.std.specs.Str.Parse.{digits_value};
ghost use Rattle.httparse.specs.Spans.{IsHeaderWithin, header_bytes, span_bytes};
ghost use Rattle.handheld_http.specs.Heads as heads;

use crate::heads::LONGEST_BODY;
use httparse::spans::HeaderSpan;

const CONTENT_LENGTH: &[u8] = b"Content-Length";

const TRANSFER_ENCODING: &[u8] = b"Transfer-Encoding";

/// Whether the texts are equal except for the case of ASCII letters.
fn is_same_but_case(text: &[u8], other: &[u8]) -> bool
    ensures { result ≡ heads.same_but_case text.now other.now }
{
    text.eq_ignore_ascii_case(other)
}

/// Whether a field of the head has the name.
fn is_named(head: &[u8], field: &HeaderSpan, name: &[u8]) -> bool
    requires { IsHeaderWithin (length head.now) field.now }
    ensures { result ≡ heads.is_named name.now (header_bytes head.now field.now) }
{
    is_same_but_case(field.name.of(head), name)
}

/// The number of fields of the head with the name.
fn count_named(head: &[u8], fields: &[HeaderSpan], name: &[u8]) -> usize
    requires { All (IsHeaderWithin (length head.now)) fields.now }
    ensures { result ≡ heads.count_named name.now (map (header_bytes head.now) fields.now) }
{
    count_here(head, fields, name)
}

/// The number of fields of the head with the name, by a loop over their places.
fn count_here(head: &[u8], fields: &[HeaderSpan], name: &[u8]) -> usize
    requires { All (IsHeaderWithin (length head.now)) fields.now }
    ensures { result ≡ count_by (λ field. heads.is_named name.now (header_bytes head.now field)) fields.now }
{
    fields
        .iter()
        .filter(|field| is_named(head, field, name))
        .count()
}

/// The value of the first field of the head with the name.
fn value_of<'h>(head: &'h [u8], fields: &[HeaderSpan], name: &[u8]) -> Option<&'h [u8]>
    requires { All (IsHeaderWithin (length head.now)) fields.now }
    ensures { option_map (λ v. v.now) result ≡ heads.value_of name.now (map (header_bytes head.now) fields.now) }
{
    for field in fields {
        if is_named(head, field, name) {
            return Some(field.value.of(head));
        }
    }
    None
}

/// Whether the value is one or more decimal digits.
pub(crate) fn is_number(value: &[u8]) -> bool
    ensures { result ≡ heads.is_number value.now }
{
    !value.is_empty() && are_digits(value)
}

/// Whether each byte is a decimal digit.
fn are_digits(value: &[u8]) -> bool
    ensures { result ≡ list_all is_ascii_digit value.now }
{
    value.iter().all(|b| b.is_ascii_digit())
}

/// The number that digits spell; if it is greater than the maximum length of a body, the maximum plus one.
pub(crate) fn number_of(digits: &[u8]) -> usize
    requires { IsTrue (list_all is_ascii_digit digits.now) }
    ensures { result ≡ min 262_145 (digits_value 10 digits.now) }
{
    let mut number = 0;
    for digit in digits {
        number = (10 * number + usize::from(*digit - b'0')).min(LONGEST_BODY + 1);
    }
    number
}

/// Whether the field asks to close the connection.
fn asks_to_close(head: &[u8], field: &HeaderSpan) -> bool
    requires { IsHeaderWithin (length head.now) field.now }
    ensures { result ≡ heads.asks_to_close (header_bytes head.now field.now) }
{
    is_named(head, field, b"Connection") && is_same_but_case(field.value.of(head), b"close")
}

/// Whether some field asks to close the connection.
fn any_closes(head: &[u8], fields: &[HeaderSpan]) -> bool
    requires { All (IsHeaderWithin (length head.now)) fields.now }
    ensures { result ≡ list_any heads.asks_to_close (map (header_bytes head.now) fields.now) }
{
    any_closes_here(head, fields)
}

/// Whether some field asks to close the connection, by a loop over their places.
fn any_closes_here(head: &[u8], fields: &[HeaderSpan]) -> bool
    requires { All (IsHeaderWithin (length head.now)) fields.now }
    ensures { result ≡ list_any (λ field. heads.asks_to_close (header_bytes head.now field)) fields.now }
{
    fields.iter().any(|field| asks_to_close(head, field))
}

/// Whether the connection is closed after a request of that minor version with these fields.
pub(crate) fn closes(minor: u8, head: &[u8], fields: &[HeaderSpan]) -> bool
    requires { All (IsHeaderWithin (length head.now)) fields.now }
    ensures { result ≡ heads.closes minor (map (header_bytes head.now) fields.now) }
{
    if minor == 0 {
        return true;
    }
    any_closes(head, fields)
}

/// The length of a body that a field states, or the status with which the request is refused.
fn stated_length(value: &[u8]) -> Result<usize, u16>
    ensures { result ≡ heads.stated_length value.now }
{
    if !is_number(value) {
        return Err(400);
    }
    let length = number_of(value);
    if length > LONGEST_BODY {
        return Err(413);
    }
    Ok(length)
}

/// Whether the method is `POST`.
pub(crate) fn is_post(method: &[u8]) -> bool
    ensures { result ≡ heads.is_post method.now }
{
    method == b"POST".as_slice()
}

/// The length of a body if no field states one, or the status with which the request is refused.
fn unstated_length(method: &[u8]) -> Result<usize, u16>
    ensures { result ≡ heads.unstated_length method.now }
{
    if is_post(method) {
        return Err(411);
    }
    Ok(0)
}

/// The length of the body after a head with this method and these fields, or the status with which the request is
/// refused.
pub(crate) fn body_length(method: &[u8], head: &[u8], fields: &[HeaderSpan]) -> Result<usize, u16>
    requires { All (IsHeaderWithin (length head.now)) fields.now }
    ensures { result ≡ heads.body_length method.now (map (header_bytes head.now) fields.now) }
{
    if count_named(head, fields, TRANSFER_ENCODING) > 0 {
        return Err(501);
    }
    if count_named(head, fields, CONTENT_LENGTH) > 1 {
        return Err(400);
    }
    match value_of(head, fields, CONTENT_LENGTH) {
        Some(value) => stated_length(value),
        None => unstated_length(method),
    }
}
