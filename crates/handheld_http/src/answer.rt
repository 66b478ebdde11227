use ldar_law::{Reply, Request, What};

/// Why a request is not passed to the office.
#[derive(Clone, Copy, Debug, PartialEq, Eq)]
pub enum Refusal {
    /// The body is not a batch as JSON.
    BadBatch,
    /// The path has no route.
    NoPath,
    /// The path has a route, but for another method: `POST` if `post`, otherwise `GET`.
    NoMethod { post: bool },
    /// A part of the path names nothing of its kind.
    NoSuch(What),
}

/// What a whole request asks for.
#[derive(Drop)]
pub enum Asked {
    Request(Request),
    Not(Refusal),
}

/// An answer to a client.
#[derive(Drop)]
pub enum Answer {
    /// To a request: the office's reply.
    Reply(Reply),
    /// To a whole request that is not passed to the office.
    Not(Refusal),
    /// To refused bytes: the status with which `cut` refused them.
    Status(u16),
}
