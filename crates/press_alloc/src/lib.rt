//! Allocation that collects first: a command that is refused for want of space is made again behind a collect.
#![tactic(auto)]

mod caller;
mod pressing;

pub use caller::Caller;
pub use pressing::press;
