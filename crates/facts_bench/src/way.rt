/// The way in which facts are listed.
#[derive(Clone, Copy)]
pub enum Way {
    /// Each fact when it arrives.
    OneByOne,
    /// All at once, after they arrived.
    AtOnce,
    /// One half after it arrived, then the other.
    Late,
}

impl Way {
    /// The way with this name, or `listed` for any other word.
    pub fn of(word: &str) -> Way {
        match word {
            "late" => Way::Late,
            _ => Way::AtOnce,
        }
    }
}
