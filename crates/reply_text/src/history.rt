ghost use Rattle.std.specs.Prelude.{◌≡◌};

use heap_model::{Entry, Heap};
use script_text::{Form, Preamble, Sequence};

/// What a play had taken when its script was done: fragments of all of them, and spine words of its budget.
#[derive(Clone, Copy, Debug, PartialEq, Eq)]
pub struct SpaceMark {
    /// How many entries stand before it.
    pub before: usize,
    pub used: u64,
    pub total: u64,
    pub spine: u64,
    pub budget: u64,
}

/// What happened in a play or a run; a play has a mark. The version is that of its script, 1 or 2.
#[derive(Debug, Drop)]
pub struct History {
    pub version: u8,
    pub form: Form,
    pub heap: Heap,
    pub entries: Sequence<Entry>,
    pub mark: Option<SpaceMark>,
    /// How many fragments are taken at the end.
    pub end_used: u64,
}

impl History {
    ghost use Rattle.reply_text.specs.History.{history_preamble};

    /// What its first two lines tell beside its form.
    pub fn preamble(&self) -> Preamble
        ensures { result ≡ history_preamble self.now }
    {
        Preamble {
            version: self.version,
            heap: self.heap,
        }
    }
}
