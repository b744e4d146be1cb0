//! A berth: a place where a whole seat of a told table rests while its owner is away, and where a helper answers phases for it.
#![tactic(auto)]

mod berth;
mod berths;
mod helper;
mod plays;
mod rule;
mod steps;
mod view;

pub use berth::{Berth, Busy};
pub use berths::Berths;
pub use helper::{Helped, Helper};
pub use rule::HeapSeat;
