//! Steps of a call on the shared table: records are stored and born, their fields are reached by links, and objects are named.
#![tactic(auto)]

mod bearing;
mod naming;
mod walking;

pub use bearing::bear_record;
pub use naming::name_of;
pub use walking::{Place, walk};
