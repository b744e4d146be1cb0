//! How many turns a collector makes between the commands of the seats.
#![tactic(auto)]

mod debt;
mod pace;
mod steady;
mod turning;

pub use debt::{Debt, MOST_OWED};
pub use pace::{MOST_SLACK_TURNS, Pace, Paces};
pub use steady::Steady;
pub use turning::{SlackDone, slack};
