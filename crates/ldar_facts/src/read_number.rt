ghost use Rattle.std.specs.Prelude.{◌≡◌, ◌^◌, ◌<◌, ◌≤◌};
ghost use Rattle.ldar_facts.specs.Form.{Gives};
ghost use Rattle.ldar_facts.specs.Number.{number_from, among, may_be, stop_of};

use crate::read_end::ReadEnd;

/// A byte that is in one of the ranges, and the bytes after it.
pub(crate) fn byte<'a>(bytes: &'a [u8], ranges: &[(u32, u32)]) -> Result<(u8, &'a [u8]), ReadEnd>
    ensures { Gives (λ x. (x.0, x.1.now)) result (number_from 1 ranges.now 0 bytes.now) }
{
    if bytes.is_empty() {
        return Err(first_wrong(bytes, 1, ranges));
    }
    let (front, rest) = bytes.split_at(1);
    let number = front[0];
    if !is_among(u32::from(number), ranges) {
        return Err(first_wrong(bytes, 1, ranges));
    }
    Ok((number, rest))
}

/// A number of two bytes that is in one of the ranges, and the bytes after it.
pub(crate) fn two_bytes<'a>(
    bytes: &'a [u8],
    ranges: &[(u32, u32)],
) -> Result<(u16, &'a [u8]), ReadEnd>
    ensures { Gives (λ x. (x.0, x.1.now)) result (number_from 2 ranges.now 0 bytes.now) }
{
    if bytes.len() < 2 {
        return Err(first_wrong(bytes, 2, ranges));
    }
    let (front, rest) = bytes.split_at(2);
    let number = u16::from_be_bytes([front[0], front[1]]);
    if !is_among(u32::from(number), ranges) {
        return Err(first_wrong(bytes, 2, ranges));
    }
    Ok((number, rest))
}

/// A number of four bytes that is in one of the ranges, and the bytes after it.
pub(crate) fn four_bytes<'a>(
    bytes: &'a [u8],
    ranges: &[(u32, u32)],
) -> Result<(u32, &'a [u8]), ReadEnd>
    ensures { Gives (λ x. (x.0, x.1.now)) result (number_from 4 ranges.now 0 bytes.now) }
{
    if bytes.len() < 4 {
        return Err(first_wrong(bytes, 4, ranges));
    }
    let (front, rest) = bytes.split_at(4);
    let number = u32::from_be_bytes([front[0], front[1], front[2], front[3]]);
    if !is_among(number, ranges) {
        return Err(first_wrong(bytes, 4, ranges));
    }
    Ok((number, rest))
}

/// Whether the number is in one of the ranges.
fn is_among(number: u32, ranges: &[(u32, u32)]) -> bool
    ensures { result ≡ among ranges.now number }
{
    ranges
        .iter()
        .any(|range| range.0 <= number && number <= range.1)
}

/// The first wrong byte of a number of `width` bytes, or `Short` if the bytes end within it.
pub(crate) fn first_wrong(bytes: &[u8], width: usize, ranges: &[(u32, u32)]) -> ReadEnd
    requires { width ≤ 4 }
    ensures { result ≡ stop_of (number_from width ranges.now 0 bytes.now) }
{
    let mut number = 0;
    for i in 0..width {
        if i >= bytes.len() {
            return ReadEnd::Short;
        }
        number = number * 256 + u64::from(bytes[i]);
        if !may_begin(number, width - 1 - i, ranges) {
            return ReadEnd::Wrong {
                left: bytes.len() - i,
            };
        }
    }
    ReadEnd::Short
}

/// Whether a number in the ranges begins like this, with `more` bytes still to come.
fn may_begin(number: u64, more: usize, ranges: &[(u32, u32)]) -> bool
    requires few { more < 4 }
    requires fits { number < 2 ^ 32 }
    ensures { result ≡ may_be more ranges.now number }
{
    let span = 256u64.pow(more as u32);
    let least = number * span;
    let most = least + (span - 1);
    ranges.iter().any(|range| least <= u64::from(range.1) && u64::from(range.0) <= most)
}
