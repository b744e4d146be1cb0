/// Which lines may follow: the space line is still to come, or the end line is, or none.
#[derive(Clone, Copy, PartialEq, Eq)]
pub enum Stage {
    Unmarked,
    Marked,
    Ended,
}
