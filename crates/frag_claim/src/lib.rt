//! Steps of a call on the shared table: fragments are gathered for a new object, and a reserve is given back.
#![tactic(auto)]

mod emptying;
mod gathering;
mod held;

pub use emptying::give_back;
pub use gathering::gather;
pub use held::{Hand, Reserve};
