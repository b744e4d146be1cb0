//! Scripts as texts: read by a grammar of whole lines, written, and made from a number.
#![tactic(auto)]

mod cause;
mod command;
mod command_set;
mod cut;
mod generator;
mod grammar;
mod heap_line;
mod line;
mod making;
mod migrating;
mod name;
mod number;
mod operand;
mod parts;
mod preamble;
mod reading;
mod script;
mod script_grammar;
mod sequence;
mod text;
mod turn;
mod writing;

pub use cause::{Cause, LineFault, ScriptFault};
pub use command::{operands, read_command};
pub use command_set::CommandSet;
pub use cut::cut as cut_at;
pub use grammar::Grammar;
pub use heap_line::read_heap;
pub use making::{MOST_MADE_LINES, MOST_START, make_script};
pub use migrating::migrate_script;
pub use name::{Name, read_name};
pub use number::read_number;
pub use operand::operand as operand_within;
pub use parts::Parts;
pub use preamble::{Preamble, USUAL_BOARD};
pub use reading::{MOST_LINES, read_script, read_text};
pub use script::{Form, Line, Script};
pub use script_grammar::read_below;
pub use sequence::Sequence;
pub use text::{push_heap_line, write_script};
pub use writing::{
    push_command, push_digits, push_heap, push_named, push_number, push_turns, push_word,
};
