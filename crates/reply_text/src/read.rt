// How the text of a history is read, line by line and word by word.

mod answers;
mod body;
mod collector;
mod line;
mod misspelled;
pub(crate) mod reading;
mod said;
mod seat;
mod stage;
mod tokens;
mod turned;
