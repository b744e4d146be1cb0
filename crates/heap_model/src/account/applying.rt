ghost use Rattle.std.specs.Prelude.{◌≡◌, ◌<◌, ◌+◌, ◌^◌, ◌↔◌, ◌∷◌, [], ◌++◌, List, Err, IsTrue, OnOk, OnErr};
ghost use Rattle.heap_model.specs.declared.entry.Entry.{Entry as Entries};
ghost use Rattle.heap_model.specs.declared.entry.Entry.TheVariants as entries;
ghost use Rattle.heap_model.specs.graph.Growth.{makes};

use crate::account::Account;
use crate::command::Command;
use crate::entry::Entry;
use crate::fault::ApplyFault;
use crate::graph::Graph;
use crate::phase_plan::{BARRIERS, CYCLE_PHASES};
use crate::reply::Reply;

impl Account {
    ghost use Rattle.heap_model.specs.account.Cycles.{graph_of};
    ghost use Rattle.heap_model.specs.account.Account.{KeepsSpace};
    ghost use Rattle.heap_model.specs.account.Books.{Tells};
    ghost use Rattle.heap_model.specs.account.Noting.{IsSeatBelow};
    ghost use Rattle.heap_model.specs.account.Preparing.{IsPrepared, WantsMemory};

    /// Whether the entry keeps the rules, for which no memory is taken.
    pub(super) fn keeps(&mut self, graph: &Graph, entry: &Entry, play: bool) -> bool
        requires { IsSeatBelow self.old.heap.seats entry.now }
        ensures keeps { (history : List Entries) → Tells self.old history → graph.now ≡ graph_of self.old.heap history → (IsTrue result ↔ KeepsSpace self.old.heap play history entry.now) }
        ensures unchanged { self.new ≡ self.old }
    {
        match *entry {
            Entry::Said {
                seat,
                command,
                reply,
            } => self.may_say(play, seat, command, reply),
            Entry::Takes { seat, count } => self.may_take(seat, count),
            Entry::GivesBack { seat, count } => self.may_give(seat, count),
            Entry::Answers { seat, phase } => self.may_answer(seat, phase),
            Entry::Advance(phase) => self.may_begin(phase),
            Entry::Frees(count) => self.may_free(count),
            Entry::Returns(count) => self.may_return(count),
            Entry::Swings(id) => self.may_swing(graph, id),
            Entry::Ends { cycle, kept } => self.may_end(graph, cycle, kept),
            Entry::Turned { reply, .. } => self.turn_shows(reply),
        }
    }

    fn may_say(&self, play: bool, seat: u8, command: Command, reply: Reply) -> bool
        requires { seat < self.now.heap.seats }
        ensures { (history : List Entries) → Tells self.now history → (IsTrue result ↔ KeepsSpace self.now.heap play history (entries.Said seat command reply)) }
    {
        self.makes_of_own(seat, command, reply)
            && self.shows_space(play, seat, command, reply)
            && self.shows_spine(play, seat, command, reply)
            && self.shows_phases(play, seat, command, reply)
    }

    /// Keeps what the entry needs memory for.
    pub(super) fn prepare(&mut self, graph: &Graph, entry: &Entry) -> Result<(), ApplyFault>
        ensures prepared { OnOk result (IsPrepared self.old graph.now entry.now self.new) }
        ensures memory { OnErr result (WantsMemory entry.now) }
        ensures fault { result ≡ Err ApplyFault.NotLegal → ⊥ }
        ensures unchanged { OnErr result (self.new ≡ self.old) }
    {
        match *entry {
            Entry::Said { seat, .. } if makes(entry) => self.search.add(seat)?,
            Entry::Advance(phase) if phase % CYCLE_PHASES == BARRIERS => self.cycle =
                self.begun_cycle(graph)?,
            Entry::Swings(id) => self.swung.add(id)?,
            _ => {}
        }
        Ok(())
    }
}

/// Whether the entry makes an object.
fn makes(entry: &Entry) -> bool
    ensures { result ≡ makes entry.now }
{
    matches!(
        *entry,
        Entry::Said {
            command: Command::New { .. } | Command::Array { .. },
            reply: Reply::Made(_),
            ..
        }
    )
}
