ghost use Rattle.std.specs.Prelude.{◌≡◌, ◌≤◌, IfSome, map, nat_eq, option_map, string_bytes};
ghost use Rattle.std.specs.List.{list_all, list_any};
ghost use Rattle.std.specs.Cmp.Lexicographic.{pointwise};
ghost use Rattle.toml.specs.View.{view, table_view};
ghost use Rattle.ldar_days.specs.Calendar.{IsDay};
ghost use Rattle.fact_kinds.specs.Name.{IsName};
ghost use Rattle.register_import.specs.Members as spec;

use fact_kinds::{Day, Name};
use toml::{Table, Value};

/// Whether a table has only these keys.
pub(crate) fn has_only(table: &Table, keys: &[&str]) -> bool
    ensures { result ≡ spec.has_only (map (λ k. k.now) keys.now) (table_view table.now) }
{
    are_among(table, keys)
}

// The same test, over the table's entries.
fn are_among(table: &Table, keys: &[&str]) -> bool
    ensures { result ≡ list_all (λ e. list_any (λ k. pointwise nat_eq k.now (string_bytes e.0)) keys.now) table.now.entries }
{
    table.iter().all(|(key, _)| is_among(keys, key.as_str()))
}

fn is_among(keys: &[&str], key: &str) -> bool
    ensures { result ≡ list_any (λ k. pointwise nat_eq k.now key.now) keys.now }
{
    keys.iter().any(|k| *k == key)
}

/// The number of a process unit, 1 to 64.
#[tactic(auto, unfolding(crate::specs::Members::unit_number))]
pub(crate) fn unit_number(value: Option<&Value>) -> Option<u8>
    ensures value { result ≡ spec.unit_number (option_map (λ v. view v.now) value.entry) }
    ensures in_range { IfSome result (λ n. (1 ≤ n) × (n ≤ 64)) }
{
    let number = value.and_then(Value::as_integer)?;
    if 1 <= number && number <= 64 {
        Some(number as u8)
    } else {
        None
    }
}

/// A Boolean.
#[tactic(auto, unfolding(crate::specs::Members::flag))]
pub(crate) fn flag(value: Option<&Value>) -> Option<bool>
    ensures value { result ≡ spec.flag (option_map (λ v. view v.now) value.entry) }
{
    value.and_then(Value::as_bool)
}

/// A day as a text, `YYYY-MM-DD`.
#[tactic(auto, unfolding(crate::specs::Members::day))]
pub(crate) fn day(value: Option<&Value>) -> Option<Day>
    ensures value { result ≡ spec.day (option_map (λ v. view v.now) value.entry) }
    ensures in_range { IfSome result IsDay }
{
    let text = value.and_then(Value::as_str)?;
    Day::read(text.as_bytes())
}

/// The name of a process unit.
#[tactic(auto, unfolding(crate::specs::Members::name))]
pub(crate) fn name(value: Option<&Value>) -> Option<Name>
    ensures value { result ≡ spec.name (option_map (λ v. view v.now) value.entry) }
    ensures in_range { IfSome result IsName }
{
    let text = value.and_then(Value::as_str)?;
    Name::new(text.as_bytes())
}
