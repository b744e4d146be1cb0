use crate::replies::{PutReply, TakeReply};
use heap_model::Value;

/// What a put or take came to, with the value that it put or took.
#[derive(Clone, Copy, Debug, PartialEq, Eq)]
pub enum Told {
    Put { value: Value, reply: PutReply },
    Took { value: Value },
    Take { reply: TakeReply },
}

/// What a put or take of a seat came to.
#[derive(Clone, Copy, Debug, PartialEq, Eq)]
pub struct ToldCall {
    pub seat: u8,
    pub told: Told,
}
