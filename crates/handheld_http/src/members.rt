ghost use Rattle.std.specs.Prelude.{◌≡◌, ◌≤◌, ◌<◌, IfSome, length, map, nat_eq, option_map, string_bytes};
ghost use Rattle.std.specs.List.{list_all, list_any, position};
ghost use Rattle.std.specs.Cmp.Lexicographic.{pointwise};
ghost use Rattle.serde_json.specs.View.{view, members_view};
ghost use Rattle.ldar_days.specs.Calendar.{IsDay};
ghost use Rattle.fact_kinds.specs.Name.{IsName};
ghost use Rattle.handheld_http.specs.Members as spec;

use fact_kinds::{Day, Name};
use serde_json::{Map, Value};

/// Whether the value is an object with no keys other than these.
#[tactic(auto, unfolding(crate::specs::Members::has_only))]
pub(crate) fn has_only(value: &Value, keys: &[&str]) -> bool
    ensures { result ≡ spec.has_only (map (λ k. k.now) keys.now) (view value.now) }
{
    match value.as_object() {
        Some(members) => are_known(members, keys),
        None => false,
    }
}

/// Whether each key of an object is among these.
fn are_known(members: &Map<String, Value>, keys: &[&str]) -> bool
    ensures { result ≡ list_all (spec.is_among (map (λ k. k.now) keys.now)) (spec.keys_of (members_view members.now.entries)) }
{
    are_among(members, keys)
}

/// Whether each key of a list of members is among these.
fn are_among(members: &Map<String, Value>, keys: &[&str]) -> bool
    ensures { result ≡ list_all (λ e. list_any (λ k. pointwise nat_eq k.now (string_bytes e.0)) keys.now) members.now.entries }
{
    members.iter().all(|(key, _)| is_among(keys, key.as_str()))
}

fn is_among(keys: &[&str], key: &str) -> bool
    ensures { result ≡ list_any (λ k. pointwise nat_eq k.now key.now) keys.now }
{
    keys.iter().any(|k| *k == key)
}

/// A whole number from `low` to `high`.
#[tactic(auto, unfolding(crate::specs::Members::number))]
pub(crate) fn number(value: Option<&Value>, low: u64, high: u64) -> Option<u64>
    ensures value { result ≡ spec.number low high (option_map (λ v. view v.now) value.entry) }
    ensures in_range { IfSome result (λ n. (low ≤ n) × (n ≤ high)) }
{
    let number = value.and_then(Value::as_u64)?;
    if low <= number && number <= high {
        Some(number)
    } else {
        None
    }
}

/// A Boolean.
#[tactic(auto, unfolding(crate::specs::Members::flag))]
pub(crate) fn flag(value: Option<&Value>) -> Option<bool>
    ensures { result ≡ spec.flag (option_map (λ v. view v.now) value.entry) }
{
    value.and_then(Value::as_bool)
}

/// The place of a text among some words.
#[tactic(auto, unfolding(crate::specs::Members::word))]
pub(crate) fn word(value: Option<&Value>, words: &[&str]) -> Option<usize>
    ensures value { result ≡ spec.word (map (λ w. w.now) words.now) (option_map (λ v. view v.now) value.entry) }
    ensures in_range { IfSome result (λ n. n < length words.now) }
{
    let text = value.and_then(Value::as_str)?;
    place_of(text, words)
}

fn place_of(text: &str, words: &[&str]) -> Option<usize>
    ensures value { result ≡ position (λ w. pointwise nat_eq w text.now) (map (λ w. w.now) words.now) }
    ensures in_range { IfSome result (λ n. n < length words.now) }
{
    place_here(text, words)
}

fn place_here(text: &str, words: &[&str]) -> Option<usize>
    ensures value { result ≡ position (λ w. pointwise nat_eq w.now text.now) words.now }
    ensures in_range { IfSome result (λ n. n < length words.now) }
{
    words.iter().position(|word| *word == text)
}

/// A day as `YYYY-MM-DD`.
#[tactic(auto, unfolding(crate::specs::Members::day))]
pub(crate) fn day(value: Option<&Value>) -> Option<Day>
    ensures value { result ≡ spec.day (option_map (λ v. view v.now) value.entry) }
    ensures in_range { IfSome result IsDay }
{
    let text = value.and_then(Value::as_str)?;
    Day::read(text.as_bytes())
}

/// The name of a process unit.
#[tactic(auto, unfolding(crate::specs::Members::name))]
pub(crate) fn name(value: Option<&Value>) -> Option<Name>
    ensures value { result ≡ spec.name (option_map (λ v. view v.now) value.entry) }
    ensures in_range { IfSome result IsName }
{
    let text = value.and_then(Value::as_str)?;
    Name::new(text.as_bytes())
}

/// The number of an instrument or a person; a missing one is 0, for none.
pub(crate) fn number_or_none(value: Option<&Value>) -> Option<u16>
    ensures value { result ≡ spec.number_or_none (option_map (λ v. view v.now) value.entry) }
{
    if value.is_none() {
        return Some(0);
    }
    let number = number(value, 0, 65_535)?;
    Some(number as u16)
}

/// A day that may be missing.
pub(crate) fn day_or_none(value: Option<&Value>) -> Option<Option<Day>>
    ensures value { result ≡ spec.day_or_none (option_map (λ v. view v.now) value.entry) }
    ensures in_range { IfSome result (λ o. IfSome o IsDay) }
{
    if value.is_none() {
        return Some(None);
    }
    let day = day(value)?;
    Some(Some(day))
}
