ghost use Rattle.std.specs.Prelude.{◌≡◌, ◌≢◌, take};
ghost use Rattle.std.specs.Bool.{MatchBool};
ghost use Rattle.ldar_journal.specs.Image.{header};

/// The first bytes of a journal: its name and version in letters, and eight zero bytes.
pub const HEADER: [u8; 16] = *b"LDARJNL1\0\0\0\0\0\0\0\0";

/// Whether the header is at the front.
pub fn begins_with_header(image: &[u8]) -> bool
    ensures { MatchBool result (take 16 image.now ≡ header) (take 16 image.now ≢ header) }
{
    match image.get(..16) {
        Some(front) => front == HEADER.as_slice(),
        None => false,
    }
}
