//! Words of 64 bits: cells, metas, names, spots, groups and phases, packed and read.
#![tactic(auto)]

mod cell;
mod control;
mod group;
mod kind;
mod laws;
mod loaded;
mod meta;
mod name;
mod newborn;
mod phase;
mod spot;

pub use cell::Cell;
pub use control::{
    ALL_TAKEN, MARKS_CLEARED, all_but, birth_bits, blacken_bit, dead_bits, fragment_bit, free_mask,
    is_clear, lowest_grey, marked_bits, next_position, shade_bit, taken_count,
};
pub use group::Group;
pub use kind::Kind;
pub use laws::word_laws;
pub use loaded::{array_length, head_in, is_meta, lead_in, link_in, payload, stamp_in};
pub use meta::Meta;
pub use name::Name;
pub use newborn::{Newborn, NewbornArray, fixed_word, spine_word};
pub use phase::{LEFT, Phase};
pub use spot::Spot;
