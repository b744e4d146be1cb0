use heap_model::Command;

/// A line of a crew's text: the number of the job that it is of, and a command.
#[derive(Clone, Copy, Debug, PartialEq, Eq)]
pub struct JobLine {
    pub job: u16,
    pub command: Command,
}
