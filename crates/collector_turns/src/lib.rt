//! The collector of a heap on the shared table, as one whose turns are called for.
#![tactic(auto)]

mod collector;
mod turning;

pub use collector::Collector;
