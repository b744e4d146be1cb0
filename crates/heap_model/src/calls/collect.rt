/// What a collect came to: a cycle that began in it and has ended, or a seat that it waits for.
#[derive(Clone, Copy, Debug, PartialEq, Eq)]
pub enum CollectReply {
    Cycle(u64),
    Waits { seat: u8, answered: u64, phase: u64 },
}

/// The calls of which a seat makes a collect: it looks at the phase, answers it, looks whether another seat is behind the phase, and notes its reply.
#[derive(Clone, Copy, Debug, PartialEq, Eq)]
pub enum Inner {
    Look,
    Answer,
    Behind { seat: u8 },
    Note(CollectReply),
}
