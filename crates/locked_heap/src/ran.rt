use heap_model::Entry;

/// What a run on one lock comes to: its history, how many fragments are in use at its end, and for each seat how often it found another one behind.
#[derive(Drop)]
pub struct LockedRan {
    pub history: Vec<Entry>,
    pub end_used: u64,
    pub waits: Vec<u64>,
}
