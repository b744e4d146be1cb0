//! What a legal play tells of the space that it needs, and how many turns of the collector a cycle takes at most.
#![tactic(auto)]

mod law;
mod planning;
mod report;
mod text;

pub use law::law_cycle_turns;
pub use planning::plan;
pub use report::{CyclePlan, PlanReport};
pub use text::render_plan;
