//! The name of a process unit, read from its twelve bytes at once. If they are not a name, they are read again letter by
//! letter (`read_name.rt`), to find the first wrong byte.

ghost use Rattle.std.specs.Prelude.{◌≡◌, ◌≤◌, ◌==◌, IfSome};
ghost use Rattle.std.specs.List.{list_all};
ghost use Rattle.fact_kinds.specs.Name.{IsName, spelled_name};

use fact_kinds::Name;

/// The name in these twelve bytes, if they are a name followed by zero bytes.
pub(crate) fn padded_name(padded: [u8; 12]) -> Option<Name>
    ensures { IfSome result (λ name. IsName name × (padded ≡ spelled_name name)) }
{
    let len = front_len(&padded);
    if are_zeros(&padded[len..]) {
        Name::new(&padded[..len])
    } else {
        None
    }
}

/// The number of bytes before the first zero byte.
fn front_len(padded: &[u8; 12]) -> usize
    ensures { result ≤ 12 }
{
    for len in 0..12 {
        if padded[len] == 0 {
            return len;
        }
    }
    12
}

/// Whether each byte is zero.
fn are_zeros(bytes: &[u8]) -> bool
    ensures { result ≡ list_all (λ b. b == 0) bytes.now }
{
    bytes.iter().all(|b| *b == 0)
}
