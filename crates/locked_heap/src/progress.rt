/// How far a seat has come with its script.
#[derive(Clone, Copy)]
pub struct Progress {
    /// How many of its commands are answered.
    pub position: usize,
    /// Whether it has left.
    pub gone: bool,
    /// The cycle whose end its collect in progress is to see.
    pub target: Option<u64>,
    /// How often it had found another seat behind when its last collect began or was answered.
    pub paid: u64,
}
