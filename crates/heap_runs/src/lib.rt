//! Plays, which make whole calls of seats and turns of the collector one after another, and runs, which let the seats of one table work in threads beside its collector.
#![tactic(auto)]

mod finishing;
mod machine_heap;
mod play_collector;
mod play_heap;
mod playing;
mod role;
mod running_seats;
mod seat_collect;
mod seat_work;
mod turning;
mod workers;

pub use finishing::finish;
pub use machine_heap::MachineHeap;
pub use play_collector::make_slack;
pub use play_heap::PlayHeap;
pub use playing::{play, play_pressed};
pub use role::{Held, HeldName};
pub use running_seats::{Ran, run_seats, seats_of};
pub use seat_collect::collect_call;
pub use seat_work::make_command;
pub use turning::turn_line;
