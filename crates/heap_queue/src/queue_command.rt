/// One command of a seat's script: put this number, or take.
#[derive(Clone, Copy, Debug, PartialEq, Eq)]
pub enum QueueCommand {
    Put(u32),
    Take,
}
