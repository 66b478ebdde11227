use fact_kinds::Key;

/// An election of the skip period program (40 CFR 60.483-2a): mode 1 or 3, or 0 for none.
#[derive(Clone, Copy, Debug, PartialEq, Eq)]
pub struct ElectionEntry {
    pub key: Key,
    pub mode: u8,
}
