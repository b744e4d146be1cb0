//! The heap that never collects: ids, commands, entries, the graph that only grows, and the account of space and phases.
#![tactic(auto)]

mod account;
mod behind;
mod calls;
mod command;
mod entry;
mod fault;
mod gate;
mod graph;
mod heap;
mod id;
pub mod limits;
pub mod phase_plan;
mod refusal;
mod reply;

pub use account::Account;
pub use account::effect::Effect;
pub use account::laws::account_laws;
pub use behind::Behind;
pub use calls::collect::{CollectReply, Inner};
pub use calls::collector_calls::{CollectorCalls, Turn, TurnsMade};
pub use calls::laws::seat_laws;
pub use calls::seat_calls::SeatCalls;
pub use command::{Command, TurnCommand};
pub use entry::Entry;
pub use fault::{ApplyFault, Memory};
pub use gate::{Gate, OpenGate};
pub use graph::Graph;
pub use graph::cell::Cell;
pub use heap::Heap;
pub use id::{Id, Value};
pub use refusal::{Full, NoObject, PlaceRefusal, SpaceRefusal};
pub use reply::{Reply, Swapped, TurnReply};
