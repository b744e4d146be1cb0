//! The words after the program's name: which forms they have, with their settings, and the work that they ask for.
#![tactic(auto)]

mod command;
mod kind;
mod matching;
mod pace;
mod range;
mod setting;
mod work;

pub use kind::TextKind;
pub use pace::PaceName;
pub use work::{MOST_HISTORY, MOST_MIGRATED_HISTORY, MOST_MIGRATED_SCRIPT, MOST_SCRIPT, Work};
