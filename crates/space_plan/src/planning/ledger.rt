ghost use Rattle.std.specs.Prelude.{◌≡◌, ◌≤◌, ◌+◌, ◌*◌, ◌^◌, ◌++◌, ◌∷◌, [], ℕ, List};
ghost use Rattle.heap_model.specs.declared.entry.Entry.{Entry as AnEntry};
ghost use Rattle.heap_model.specs.Heap.{IsHeap};
ghost use Rattle.heap_model.specs.account.Noting.{IsSeatBelow};
ghost use Rattle.reply_text.specs.write.Counts.{is_end};
ghost use Rattle.space_plan.specs.plan.Takes.{taken_since_end};

use crate::planning::seat_spaces::SeatSpaces;
use heap_model::{Effect, Entry, Heap};

/// The counts of fragments up to some entry: all that were gained and lost, those taken since the last end of a
/// cycle, and those of each seat.
#[derive(Drop)]
pub struct Ledger {
    pub heap: Heap,
    pub gained: u64,
    pub lost: u64,
    pub section: u64,
    pub seats: SeatSpaces,
}

/// Whether the entry ends a cycle.
fn is_end(entry: &Entry) -> bool
    ensures { result ≡ is_end entry.now }
{
    matches!(*entry, Entry::Ends { .. })
}

/// What was taken since the last end of a cycle, where it was so much before the entry.
fn section_after(section: u64, entry: &Entry) -> u64
    requires { section ≤ 2 ^ 54 }
    ensures tells { (history : List AnEntry) → section ≡ taken_since_end history →
        result ≡ taken_since_end (history ++ entry.now ∷ []) }
    ensures fits { result ≤ section + 2 ^ 32 }
{
    if is_end(entry) {
        return 0;
    }
    section + Effect::of(entry).taken
}

impl Ledger {
    ghost use Rattle.heap_model.specs.account.Space.{fragments_used};
    ghost use Rattle.space_plan.specs.plan.Walking.{LedgerTells, LedgerFits};

    /// The counts before the first entry.
    pub fn opening(heap: Heap) -> Ledger
        requires { IsHeap heap }
        ensures tells { LedgerTells heap result [] }
        ensures fits { LedgerFits 0 result }
        ensures heap { result.heap ≡ heap }
    {
        Ledger {
            heap,
            gained: u64::from(heap.board_fragments()),
            lost: 0,
            section: 0,
            seats: SeatSpaces::opening(),
        }
    }

    /// Counts the entry.
    pub fn count(&mut self, entry: &Entry)
        requires heap { IsHeap self.old.heap }
        requires few { LedgerFits (2 ^ 22) self.old }
        requires seat { IsSeatBelow self.old.heap.seats entry.now }
        ensures tells { (history : List AnEntry) → LedgerTells self.old.heap self.old history →
            LedgerTells self.old.heap self.new (history ++ entry.now ∷ []) }
        ensures fits { (n : ℕ) → LedgerFits n self.old → LedgerFits (n + 1) self.new }
        ensures heap { self.new.heap ≡ self.old.heap }
    {
        let effect = Effect::of(entry);
        self.gained += effect.taken;
        self.lost += effect.given + effect.freed;
        self.section = section_after(self.section, entry);
        self.seats.count(entry);
    }

    /// The fragments in use, and 0 where more were lost than gained.
    pub fn used(&self) -> u64
        ensures { (history : List AnEntry) → LedgerTells self.now.heap self.now history →
            result ≡ fragments_used self.now.heap history }
    {
        self.gained.saturating_sub(self.lost)
    }
}
