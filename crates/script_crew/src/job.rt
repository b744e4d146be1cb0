use heap_model::Command;

/// What one seat has to do in one go: its number, and its commands in order.
#[derive(Debug, Drop)]
pub struct Job {
    pub number: u32,
    pub commands: Vec<Command>,
}

/// That a seat ran a job: its commands stand in the seat's log from `from` up to `to`.
#[derive(Clone, Copy, Debug, PartialEq, Eq, Drop)]
pub struct JobRun {
    pub job: u32,
    pub seat: u8,
    pub from: u32,
    pub to: u32,
}
