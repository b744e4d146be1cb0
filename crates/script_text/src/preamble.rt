use heap_model::Heap;

/// The board's fields in version 1, whose heap line has no number for them.
pub const USUAL_BOARD: u8 = 32;

/// What the first two lines of a text tell: its version, which is 1 or 2, and the heap that it asks for.
#[derive(Clone, Copy, Debug, PartialEq, Eq)]
pub struct Preamble {
    pub version: u8,
    pub heap: Heap,
}
