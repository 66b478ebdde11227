use httparse::spans::Span;

/// The extent of a request, from its head: the lengths of the head and of the body, whether it is the last request that
/// is answered, and where the method and the target are in the head.
#[derive(Clone, Copy, Debug, PartialEq, Eq)]
pub struct Extent {
    pub head: usize,
    pub body: usize,
    pub closing: bool,
    pub method: Span,
    pub target: Span,
}

/// What is at the front of the received bytes.
#[derive(Clone, Copy, Debug, PartialEq, Eq)]
pub enum Cut {
    /// A request: a head of this length, followed by a body of this length. A closing request is the last one that is
    /// answered.
    Whole {
        head: usize,
        body: usize,
        closing: bool,
    },
    /// Possibly the beginning of a request; more bytes are needed.
    More,
    /// No request, whatever follows.
    Refused {
        status: u16,
    },
}

/// What the head of a request says about it.
#[derive(Clone, Copy, Debug, PartialEq, Eq)]
pub enum Front {
    /// The head is complete and has this extent.
    Head(Extent),
    /// The head has not ended yet.
    Unended,
    /// No request, whatever follows.
    Refused { status: u16 },
}
