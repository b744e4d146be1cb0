use heap_table::Closed;

/// What a work comes to: its text, and of a run without the lock the closed table on which it ran.
#[derive(Drop)]
pub struct Made {
    pub text: Vec<u8>,
    pub closed: Option<Closed>,
}
