//! Steps of a call on the shared table: spine words are asked for and taken back, arrays are stored and born, and their cells are reached through the spine.
#![tactic(auto)]

mod bearing;
mod budget;
mod locating;

pub use bearing::bear_array;
pub use budget::{Budget, SpineFull, drop_budget, take_budget};
pub use locating::cell_at;
