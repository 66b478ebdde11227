ghost use Rattle.std.specs.Prelude.{◌≡◌, ℕ, ◌<◌, true, OnOk, length, nat_eq, if◌then◌else◌};
ghost use Rattle.touched_readings.specs.Flags.{flag_of};

use fact_kinds::Memory;

/// Whether the flag of a number is set. A number without a flag is like one whose flag is cleared.
pub fn flag_at(flags: &[bool], number: u16) -> bool
    ensures value { result ≡ flag_of flags.now number }
{
    let at = usize::from(number);
    at < flags.len() && flags[at]
}

/// Makes a cleared flag for each number up to one.
pub fn make_flags(flags: &mut Vec<bool>, number: u16) -> Result<(), Memory>
    ensures value { (n : ℕ) → flag_of flags.new.items n ≡ flag_of flags.old.items n }
    ensures within { OnOk result (number < length flags.new.items) }
{
    while flags.len() <= usize::from(number) {
        flags.push(false)?;
    }
    Ok(())
}

/// Sets the flag of a number.
pub fn set_flag(flags: &mut [bool], number: u16)
    requires within { number < length flags.old }
    ensures value { (n : ℕ) → flag_of flags.new n ≡ (if nat_eq n number then true else flag_of flags.old n) }
{
    flags[usize::from(number)] = true;
}
