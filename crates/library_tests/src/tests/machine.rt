//! The machine, tested by its public calls: what is done on it, step by step, with the words found.

mod arrays;
mod barrier;
mod boards;
mod calls;
mod collects;
mod copying;
mod deeds;
mod fields;
mod making;
mod marking;
mod reading;
mod swaps;
mod sweeping;
mod texts;
mod trial;
mod turns;
