//! The machine of single atomic steps: a table of words, and parties that each make one step at a time.
#![tactic(auto)]

mod collector;
mod log;
mod machine;
mod point;
mod seat;
mod step;
mod table;

pub use collector::CollectorParty;
pub use collector::copying::visit;
pub use collector::marking::pass_on;
pub use collector::stage::{ArrayAt, Copying, Scan, SpineCopy, SpineScan, Stage, Visit};
pub use collector::sweeping::{cleared, examine_from, swept};
pub use log::counted::CountedLog;
pub use log::kept::Log;
pub use log::last::LastLog;
pub use log::recent::RecentLog;
pub use log::told::ToldLog;
pub use log::{CountsEntries, Entries, ShowsLast, ShowsRecent};
pub use machine::Machine;
pub use machine::opening::opening_words;
pub use point::{Access, Collecting, Leaving, Making, Point, Polling, Side};
pub use seat::SeatParty;
pub use seat::collecting::noted;
pub use seat::looks::Looks;
pub use seat::register::Register;
pub use step::operation::Operation;
pub use step::{AccessStep, CopyingStep, HandshakeStep, MakingStep, SpineStep, Step, TurningStep};
pub use table::address::Address;
pub use table::decode::spine_words;
