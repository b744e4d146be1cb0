//! The rule that every state of the machine keeps, and its law over every list of steps.
#![tactic(auto)]

mod laws;

pub use laws::{graph_laws, law_every_run, law_spine_offset, law_sweep_exact};
