/// The place of a fact in a store: the number of facts that arrived before it.
#[derive(Clone, Copy, Debug, PartialEq, Eq)]
pub struct Place {
    pub at: u32,
}
