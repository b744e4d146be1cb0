//! The checking of histories, and the merging of logs: whether each line is legal after those before it, and an order in which logs are.
#![tactic(auto)]

mod checker;
mod checking;
mod fault;
mod few_sets;
mod law;
mod merging;
mod totals;

pub use checking::check;
pub use fault::CheckFault;
pub use few_sets::have_few_sets;
pub use law::law_migrated_verdict;
pub use merging::merge;
