ghost use Rattle.std.specs.Prelude.{◌≡◌, ℕ, ◌<◌, OnOk, length, nat_eq, if◌then◌else◌};
ghost use Rattle.fact_store.specs.Lists.{value_at};

use fact_kinds::Memory;

/// Makes a count of 0 for each number up to one.
pub fn make_counts(counts: &mut Vec<usize>, number: u8) -> Result<(), Memory>
    ensures same { (n : ℕ) → value_at (λ c. c) 0 counts.new.items n ≡ value_at (λ c. c) 0 counts.old.items n }
    ensures room { OnOk result (number < length counts.new.items) }
{
    while counts.len() <= usize::from(number) {
        counts.push(0)?;
    }
    Ok(())
}

/// Sets the count of a number.
pub fn set_count(counts: &mut [usize], number: u8, count: usize)
    requires within { number < length counts.old }
    ensures value { (n : ℕ) → value_at (λ c. c) 0 counts.new n ≡ (if nat_eq n number then count else value_at (λ c. c) 0 counts.old n) }
{
    counts[usize::from(number)] = count;
}
