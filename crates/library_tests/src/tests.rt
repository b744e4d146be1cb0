//! What the libraries up to space_plan answer to their public calls.

mod boards;
mod books;
mod call_steps;
mod checks;
mod comparing;
mod cycling;
mod forms;
mod histories;
mod interleavings;
mod machine;
mod merges;
mod opening;
mod paces;
mod plans;
mod scripts;
mod streams;
mod swaps;
mod table;
mod words;
