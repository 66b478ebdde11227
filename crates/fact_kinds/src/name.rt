ghost use Rattle.std.specs.Prelude.{◌≡◌, IsNone, IfSome};
ghost use Rattle.std.specs.List.{list_all};
ghost use Rattle.fact_kinds.specs.Name.{IsName, is_name_byte, spelled_name};

use std::marker::Model;

/// The name of a process unit: 1 to 12 capital letters, digits and hyphens. In contracts it is its bytes.
#[derive(Clone, Copy, PartialEq, Eq)]
pub struct Name {
    bytes: [u8; 12],
    len: u8,
}

impl Model for Name {
    ghost use Rattle.std.specs.Prelude.{◌≡◌, ℕ, List, length, take};
    ghost use Rattle.fact_kinds.specs.Name.{IsName, spelled_name};

    ghost Value = { List ℕ };

    ghost view = { λ n. take n.len n.bytes };

    ghost invariant = { λ n. (length (take n.len n.bytes) ≡ n.len) × (n.bytes ≡ spelled_name (take n.len n.bytes)) × IsName (take n.len n.bytes) };

    ghost inverse = { λ name. record { bytes = spelled_name name; len = length name } };
}

impl Name {
    /// The name with these bytes, or `None` if they are not 1 to 12 capital letters, digits and hyphens.
    pub fn new(bytes: &[u8]) -> Option<Name>
        ensures none { IsNone result → ¬ (IsName bytes.now) }
        ensures value { IfSome result (λ name. IsName bytes.now × (name ≡ bytes.now)) }
    {
        let len = bytes.len();
        if len == 0 || len > 12 || !are_letters(bytes) {
            return None;
        }
        let mut spelled = [0u8; 12];
        spelled[..len].copy_from_slice(bytes);
        Some(Name {
            bytes: spelled,
            len: len as u8,
        })
    }

    /// The bytes of the name.
    pub fn as_bytes(&self) -> &[u8]
        ensures value { result.now ≡ self.now }
        ensures in_range { IsName result.now }
    {
        &self.bytes[..usize::from(self.len)]
    }

    /// The bytes of the name, followed by zero bytes up to twelve.
    pub fn padded(&self) -> &[u8]
        ensures value { result.now ≡ spelled_name self.now }
    {
        &self.bytes
    }
}

/// Whether each byte is allowed in a name.
fn are_letters(bytes: &[u8]) -> bool
    ensures { result ≡ list_all is_name_byte bytes.now }
{
    bytes
        .iter()
        .all(|b| matches!(*b, b'-' | b'0'..=b'9' | b'A'..=b'Z'))
}
