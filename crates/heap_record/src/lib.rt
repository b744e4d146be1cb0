//! A machine with the history of all that was done to it, and what every run does with its collector.
#![tactic(auto)]

mod last_cycle;
mod note;
mod recorder;
mod slack_work;

pub use last_cycle::{end_whole_cycle, next_whole_cycle};
pub use note::claimed;
pub use recorder::Recorder;
pub use slack_work::{SlackWork, work_slack};
