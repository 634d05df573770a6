//! What is seen of a program in a case, beside the lines of its conversation.

/// How a program ended.
#[derive(Clone, Copy, Debug, PartialEq, Eq, Drop)]
pub enum Ended {
    Status(u8),
    /// A signal ended it.
    Signal(u32),
    /// Its connection ended, which tells no status.
    Unseen,
    /// It neither said nor took anything, nor ended, for longer than was waited, and was ended.
    Silent,
    /// Its end can't be told.
    Lost,
}

/// What is seen beside the lines, which are the arrivals that were sent to the program and the messages
/// that it said when one was due.
#[derive(Clone, Copy, Debug, Drop)]
pub struct Seen {
    /// The event at which the role stops over these arrivals whatever it draws, where that's known.
    pub due: Option<u32>,
    /// How many messages came behind the lines.
    pub more: u32,
    /// Whether bytes came behind them that are no whole message.
    pub loose: bool,
    /// Whether the last line is a message that the partner refused.
    pub refused: bool,
    pub ended: Ended,
    /// How far the honest case got, as `reached_by` says it.
    pub reached: usize,
}
