//! A queue of Michael and Scott over the heap: its making, puts and takes by any seat, and what is true of every history of them.
#![tactic(auto)]

mod finding;
mod laws;
mod leaving;
mod making;
mod opening;
mod putting;
mod queue_command;
mod queue_fault;
mod queue_grammar;
mod queue_line;
mod queue_run;
mod queue_script;
mod refusing;
mod rendering;
mod replies;
mod reply_words;
mod run_text;
mod seat_scripts;
mod serving;
mod stage;
mod stages;
mod table_seat;
mod taking;
mod teller;
mod telling;
mod told;
mod workers;

pub use laws::{law_orders, law_queue};
pub use making::make_queue;
pub use putting::put;
pub use queue_command::QueueCommand;
pub use queue_fault::QueueFault;
pub use queue_line::QueueLine;
pub use queue_run::{QueueRan, run_queue};
pub use queue_script::{QueueScript, read_queue};
pub use rendering::{render_full, render_queue};
pub use replies::{PutReply, TakeReply};
pub use run_text::tell_queue;
pub use seat_scripts::scripts_of;
pub use serving::serve_script;
pub use taking::take;
pub use teller::tell_calls;
pub use told::{Told, ToldCall};
