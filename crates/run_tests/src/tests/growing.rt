//! A heap without a machine: it keeps the graph that its entries grow, and serves what takes no fragments.

ghost use Rattle.std.specs.Prelude.{◌≡◌, ◌<◌, [], ◌∷◌, ◌++◌, IfOk, vec_len, vec_capacity};
ghost use Rattle.heap_model.specs.Heap.{IsHeap};
ghost use Rattle.run_tests.specs.Growing.{is_plain};

use heap_model::{Command, Entry, Graph, Heap, Memory, Reply, Turn, TurnCommand, TurnReply};
use heap_runs::PlayHeap;
use std::alloc::Global;
use std::marker::Model;

/// Each of its turns is a step that adds nothing, and there are few. For more, for room, and for all that takes fragments or looks
/// at a field it has no memory.
#[derive(Drop)]
pub struct Growing {
    heap: Heap,
    entries: Vec<Entry>,
    graph: Graph,
    turns: u64,
    last_turn: Option<Turn>,
    turns_left: u8,
}

impl Model for Growing {
    ghost use Rattle.heap_runs.specs.PlayHeap.{PlayState};
    ghost use Rattle.run_tests.specs.Growing.{IsGrowing};

    ghost Value = { PlayState };

    ghost view = { λ whole. record {
      heap = whole.heap;
      entries = whole.entries.items;
      spare = 0;
      turns = whole.turns;
      last_turn = whole.last_turn;
      turns_left = whole.turns_left;
    } };

    ghost invariant = { λ whole. IsGrowing whole.heap whole.entries.items whole.graph };
}

impl Growing {
    pub fn new(alloc: Global, heap: Heap) -> Result<Growing, Memory>
        requires { IsHeap heap }
        ensures fresh { IfOk result (λ whole. whole.entries ≡ []) }
        ensures heap { IfOk result (λ whole. whole.heap ≡ heap) }
    {
        Ok(Growing {
            heap,
            entries: Vec::new(alloc),
            graph: Graph::new(alloc, heap)?,
            turns: 0,
            last_turn: None,
            turns_left: 5,
        })
    }
}

/// Adds an entry, for which there is room.
fn note(list: &mut Vec<Entry>, entry: Entry)
    requires { vec_len list.old < vec_capacity list.old }
    ensures { list.new.items ≡ list.old.items ++ entry ∷ [] }
{
    let _ = list.push(entry);
}

/// Whether the command changes registers alone, or leaves.
fn changes_registers(command: &Command) -> bool
    ensures { result ≡ is_plain command.now }
{
    matches!(
        *command,
        Command::Num { .. } | Command::Nil { .. } | Command::Copy { .. } | Command::Leave
    )
}

impl PlayHeap for Growing {
    ghost state = { λ whole. whole };

    fn call(&mut self, seat: u8, command: &Command) -> Result<Reply, Memory> {
        if !changes_registers(command) {
            return Err(Memory);
        }
        let entry = Entry::Said {
            seat,
            command: *command,
            reply: Reply::Done,
        };
        self.entries.reserve(1)?;
        let Ok(()) = self.graph.apply(&entry) else {
            return Err(Memory);
        };
        note(&mut self.entries, entry);
        Ok(Reply::Done)
    }

    fn turn(&mut self) -> Result<Turn, Memory> {
        if self.turns_left == 0 {
            return Err(Memory);
        }
        self.turns_left -= 1;
        self.turns = self.turns.saturating_add(1);
        self.last_turn = Some(Turn::Stepped);
        Ok(Turn::Stepped)
    }

    fn room(&mut self, _n: usize) -> Result<(), Memory> {
        Err(Memory)
    }

    fn spare(&self) -> usize {
        // What is true of every such heap is known from here on.
        let _ = &self.entries;
        0
    }

    fn phase(&self) -> u64 {
        // What is true of every such heap is known from here on.
        let _ = &self.entries;
        0
    }

    fn turns(&self) -> u64 {
        self.turns
    }

    fn entries(&self) -> &[Entry] {
        &self.entries
    }

    fn note_turned(&mut self, command: TurnCommand, reply: TurnReply) -> Result<(), Memory> {
        self.entries.reserve(1)?;
        note(&mut self.entries, Entry::Turned { command, reply });
        Ok(())
    }

    fn into_entries(self) -> Vec<Entry> {
        self.entries
    }
}
