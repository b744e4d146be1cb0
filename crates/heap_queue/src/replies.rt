/// What a put came to.
#[derive(Clone, Copy, Debug, PartialEq, Eq)]
pub enum PutReply {
    Ok,
    /// Another seat was faster, by the set with this stamp: nothing was put.
    Again { stamp: u32 },
    /// Too few fragments were found for a node.
    Full { need: u32, found: u32 },
    /// The board holds no queue.
    NoQueue,
}

/// What a take came to.
#[derive(Clone, Copy, Debug, PartialEq, Eq)]
pub enum TakeReply {
    Took,
    Empty,
    /// Another seat was faster, by the set with this stamp: nothing was taken.
    Again { stamp: u32 },
    /// The board holds no queue.
    NoQueue,
}
