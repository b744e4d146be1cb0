//! Jobs that the seats of a crew take from one queue, each run once and whole, beside the collector of their table.
#![tactic(auto)]

mod crew;
mod crew_grammar;
mod crew_script;
mod filling;
mod gathering;
mod job;
mod job_line;
mod job_run;
mod leaving;
mod parting;
mod position_rule;
mod shift;
mod site;
mod telling;
mod worker;

pub use crew::{CrewRan, run_crew};
pub use crew_script::{CrewScript, read_crew};
pub use job::{Job, JobRun};
pub use job_line::JobLine;
pub use parting::jobs_of;
pub use telling::render_crew;
