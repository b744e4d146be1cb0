//! The machine behind one lock, on which the seats of a run work in threads of their own.
#![tactic(auto)]

mod handed;
mod locked;
mod progress;
mod ran;
mod running;
mod working;

pub use ran::LockedRan;
pub use running::run_locked;
