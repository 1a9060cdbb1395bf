/// How a session ended.
#[derive(Clone, Copy, Debug, PartialEq, Eq)]
pub enum Ending {
    /// The source was read to its end, which is between messages.
    Done,
    /// A message asked to close, and was answered. Nothing that follows it is.
    Closed,
    /// The source ended inside a message.
    Cut,
    /// Bytes are no message, and were answered with this status, or with 507 where memory was wanting for that answer.
    Refused(u16),
    /// A read failed.
    Read,
    /// A write failed. Messages may have been answered whose responses were not taken, or not whole.
    Write,
    /// 2^32 bytes were taken, and no other ending stands in them.
    Long,
    /// There was no memory for what a session needs. Nothing was read.
    Memory,
}
