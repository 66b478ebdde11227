/// How a connection ended.
#[derive(Clone, Copy, Debug, PartialEq, Eq)]
pub enum Ended {
    /// The input ended after the last item, or was empty; or the last item closes the connection.
    Done,
    /// The maximum number of answers was given.
    Stopped,
    /// The input ended within an item, of which this many bytes were read.
    CutShort { got: u64 },
    /// No batch continues with the byte at this place of the input, from 0; or the request that begins there is
    /// refused.
    Refused { at: u64 },
    /// Read error: a call of the source failed.
    ReadFault,
    /// Write error: a call of the sink failed.
    WriteFault,
    /// Out of memory: for the buffers, an item or an answer, or for the replies of the office.
    Memory,
}
