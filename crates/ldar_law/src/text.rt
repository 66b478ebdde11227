ghost use Rattle.std.specs.Prelude.{◌≡◌};

use std::marker::Model;

/// The text of a view. In contracts it is its bytes.
#[derive(Drop)]
pub struct Text {
    bytes: Vec<u8>,
}

impl Model for Text {
    ghost use Rattle.std.specs.Prelude.{ℕ, List};

    ghost Value = { List ℕ };

    ghost view = { λ t. t.bytes.items };
}

impl Text {
    /// The text with these bytes. Allocates nothing.
    pub fn new(bytes: Vec<u8>) -> Text
        ensures value { result ≡ bytes.items }
    {
        Text { bytes }
    }

    /// The bytes of the text.
    pub fn as_bytes(&self) -> &[u8]
        ensures value { result.now ≡ self.now }
    {
        self.bytes.as_slice()
    }

    /// Returns the bytes of the text as a vector. Allocates nothing.
    pub fn into_bytes(self) -> Vec<u8>
        ensures value { result.items ≡ self }
    {
        self.bytes
    }
}
