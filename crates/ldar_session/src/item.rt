use ldar_law::Request;

/// An item at the front that is passed to the office: a request, and the number of its bytes. A closing item is the
/// last one that is answered.
#[derive(Drop)]
pub struct Question {
    pub request: Request,
    pub used: usize,
    pub closing: bool,
}

/// An item at the front that is not passed to the office: the number of its bytes, and its answer.
#[derive(Drop)]
pub struct Unasked {
    pub text: Vec<u8>,
    pub used: usize,
    pub closing: bool,
}

/// An item at the front of the bytes in hand.
#[derive(Drop)]
pub enum Item {
    Asks(Question),
    Says(Unasked),
    /// The bytes are refused, whatever follows, and this is their answer.
    Away(Vec<u8>),
}

/// What is at the front of the bytes in hand.
#[derive(Drop)]
pub enum Front {
    Whole(Item),
    /// No item, but one may be there when more bytes have arrived.
    Unfinished,
    /// No item continues with the byte at this place, and it gets no answer.
    Wrong { at: usize },
}
