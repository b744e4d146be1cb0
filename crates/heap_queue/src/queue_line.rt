use crate::queue_command::QueueCommand;

/// A line of a queue's text: the number of the seat that it is of, and what that seat does.
#[derive(Clone, Copy, Debug, PartialEq, Eq)]
pub struct QueueLine {
    pub seat: u8,
    pub command: QueueCommand,
}
