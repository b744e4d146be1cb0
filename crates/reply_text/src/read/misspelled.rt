/// A line, or a part of it, that is none of a history.
#[derive(Clone, Copy)]
pub struct Misspelled;
