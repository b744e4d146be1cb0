//! A box as its pointer, and that pointer as the box again.
#![tactic(auto)]

mod raw_box;

pub use raw_box::RawBox;
