// How a history is written, line by line and word by word, and in brief.

pub(crate) mod brief;
pub(crate) mod counts;
pub(crate) mod rendering;
mod replies;
pub(crate) mod text;
