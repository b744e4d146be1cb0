use heap_model::Entry;

/// A line of a history after its heap line.
#[derive(Clone, Copy, Debug, PartialEq, Eq)]
pub enum HistoryLine {
    Entry(Entry),
    Space {
        used: u64,
        total: u64,
        spine: u64,
        budget: u64,
    },
    End(u64),
}
