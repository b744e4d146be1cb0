//! A mutator's calls on the shared table: whole calls of a seat, and the inner calls of a collect.
#![tactic(auto)]

mod answers;
mod run;
mod seat;

pub use seat::Seat;
