ghost use Rattle.std.specs.Prelude.{◌≡◌, ◌↔◌, IsTrue, ◌*◌, ◌+◌, ◌≤◌};
ghost use Rattle.heap_model.specs.declared.calls.collect.CollectReply.TheVariants.{Cycle};
ghost use Rattle.core_machine.specs.seat.Looks.{no_looks, forgotten, looked, seen_phase, compared, FirstUpTo, MayNote, MayMake};

use heap_model::phase_plan::CYCLE_PHASES;
use heap_model::{Behind, CollectReply, Heap, Inner};

/// What a seat has found out by the inner calls of its collects.
#[derive(Clone, Copy)]
pub struct Looks {
    /// The phase that its first look since its last reply loaded.
    pub first: Option<u64>,
    /// The phase that it last loaded, in whatever call; 0 at the opening.
    pub seen: u64,
    /// What it last found since its last reply when it asked whether another seat is behind.
    pub behind: Option<Behind>,
    /// How often it found a seat behind, up to the largest number of 64 bits.
    pub waits: u64,
}

impl Looks {
    /// At the opening nothing was found.
    pub fn none() -> Looks
        ensures { result ≡ no_looks }
    {
        Looks {
            first: None,
            seen: 0,
            behind: None,
            waits: 0,
        }
    }

    /// A reply forgets what was found since the one before it.
    pub fn forget(&mut self)
        ensures { self.new ≡ forgotten self.old }
    {
        self.first = None;
        self.behind = None;
    }

    /// A look found this phase.
    pub fn look(&mut self, found: u64)
        ensures { self.new ≡ looked found self.old }
    {
        if self.first.is_none() {
            self.first = Some(found);
        }
        self.seen = found;
    }

    /// This phase was loaded.
    pub fn see(&mut self, found: u64)
        ensures { self.new ≡ seen_phase found self.old }
    {
        self.seen = found;
    }

    /// Compares the word of another seat with the phase.
    pub fn compare(&mut self, other: u8, phase: u64, word: u64)
        ensures { self.new ≡ compared other phase word self.old }
    {
        if word >= phase {
            self.behind = None;
            return;
        }
        self.behind = Some(Behind {
            seat: other,
            answered: word,
            phase,
        });
        self.waits = self.waits.saturating_add(1);
    }

    /// Whether a cycle is known to have begun after the first look since the last reply, and to have ended.
    fn saw_cycle(&self, cycle: u64) -> bool
        ensures { IsTrue result ↔ MayNote self.now (Cycle cycle) }
    {
        let Some(first) = self.first else {
            return false;
        };
        if cycle >= self.seen / CYCLE_PHASES {
            return false;
        }
        first <= CYCLE_PHASES * cycle
    }

    /// Whether what was found allows this reply.
    fn may_note(&self, reply: CollectReply) -> bool
        ensures { IsTrue result ↔ MayNote self.now reply }
    {
        match reply.ended() {
            Ok(cycle) => self.saw_cycle(cycle),
            Err(behind) => self.behind == Some(behind),
        }
    }

    /// Whether the seat of this number may make the inner call after what it found.
    pub fn may_make(&self, heap: &Heap, number: u8, inner: &Inner) -> bool
        ensures { IsTrue result ↔ MayMake heap.now number self.now inner.now }
    {
        match *inner {
            Inner::Look | Inner::Answer => true,
            Inner::Behind { seat } => seat < heap.seats && seat != number,
            Inner::Note(reply) => self.may_note(reply),
        }
    }
}
