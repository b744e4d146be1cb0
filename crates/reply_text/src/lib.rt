//! Histories as texts: written, also in brief, and read by a grammar of whole lines.
#![tactic(auto)]

mod history;
mod history_line;
mod migrating;
mod read;
mod write;

pub use history::{History, SpaceMark};
pub use history_line::HistoryLine;
pub use migrating::migrate_history;
pub use read::reading::read_history;
pub use write::brief::render_brief;
pub use write::counts::BriefCounts;
pub use write::rendering::{push_entry, render_entry};
pub use write::text::render_history;
