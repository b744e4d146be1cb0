ghost use Rattle.std.specs.Prelude.{◌≡◌, ◌+◌, ◌<◌, ◌↔◌, IsTrue};

use crate::command::Command;
use crate::entry::Entry;
use crate::graph::Graph;
use crate::id::Id;
use crate::limits::SET_LIMIT;
use crate::reply::Reply;

impl Graph {
    ghost use Rattle.heap_model.specs.Limits.{set_limit};
    ghost use Rattle.heap_model.specs.graph.Objects.{graph_seat, cell_at, register_cell, register_value, target_node};
    ghost use Rattle.heap_model.specs.graph.Legal.{Accepts};
    ghost use Rattle.heap_model.specs.graph.Replies.{Says, Makes, Gets, Sets, Swaps, Compares, length_reply};

    pub(super) fn accepts(&self, entry: &Entry) -> bool
        ensures { IsTrue result ↔ Accepts self.now entry.now }
    {
        if let Entry::Said {
            seat,
            command,
            reply,
        } = *entry
        {
            return self.is_present(seat)
                && command.is_in_range()
                && self.says(seat, command, reply);
        }
        entry.seat().is_none_or(|seat| self.is_present(seat))
    }

    /// Whether this is what the seat is told.
    fn says(&self, seat: u8, command: Command, reply: Reply) -> bool
        ensures { IsTrue result ↔ Says self.now seat command reply }
    {
        match command {
            Command::New { .. } => self.makes(seat, reply),
            Command::Array { .. } => {
                matches!(reply, Reply::SpineFull { .. }) || self.makes(seat, reply)
            }
            Command::Get { r, i, .. } => self.gets(seat, r, i, reply),
            Command::Set { r, i, .. } => self.sets(seat, r, i, reply),
            Command::Cas { r, i, a, .. } => self.swaps(seat, r, i, a, reply),
            Command::Num { .. } | Command::Nil { .. } | Command::Copy { .. } | Command::Leave => {
                reply == Reply::Done
            }
            Command::Same { a, b } => self.compares(seat, a, b, reply),
            Command::Len { r } => self.has_length(seat, r, reply),
            Command::Poll => matches!(reply, Reply::Phase(_)),
            Command::Collect => matches!(reply, Reply::Cycle(_) | Reply::Waits { .. }),
        }
    }

    fn makes(&self, seat: u8, reply: Reply) -> bool
        ensures { IsTrue result ↔ Makes self.now seat reply }
    {
        match reply {
            Reply::Made(Id::Made { seat: maker, count }) => {
                maker == seat && count as usize == self.made(seat)
            }
            Reply::Full { .. } => true,
            _ => false,
        }
    }

    fn gets(&self, seat: u8, r: u8, i: u32, reply: Reply) -> bool
        ensures { IsTrue result ↔ Gets (cell_at self.now seat r i) reply }
    {
        match self.cell(seat, r, i) {
            Ok(cell) => {
                reply
                    == Reply::Got {
                        value: cell.value,
                        stamp: cell.stamp,
                    }
            }
            Err(refusal) => reply == refusal,
        }
    }

    fn sets(&self, seat: u8, r: u8, i: u32, reply: Reply) -> bool
        ensures { IsTrue result ↔ Sets (graph_seat self.now seat).sets (cell_at self.now seat r i) reply }
    {
        match self.cell(seat, r, i) {
            Ok(cell) => reply == Reply::Was(cell.stamp) && self.has_set_left(seat),
            Err(refusal) => reply == refusal,
        }
    }

    fn swaps(&self, seat: u8, r: u8, i: u32, a: u8, reply: Reply) -> bool
        ensures { IsTrue result ↔ Swaps (graph_seat self.now seat).sets (register_cell self.now seat a) (cell_at self.now seat r i) reply }
    {
        let seen = self.register(seat, a);
        match (self.cell(seat, r, i), reply) {
            (Ok(cell), Reply::Was(stamp)) => {
                cell == seen && stamp == cell.stamp && self.has_set_left(seat)
            }
            (Ok(cell), Reply::Now(stamp)) => cell != seen && stamp == cell.stamp,
            (Ok(_), _) => false,
            (Err(refusal), _) => reply == refusal,
        }
    }

    /// Whether one more set is left to the seat.
    fn has_set_left(&self, seat: u8) -> bool
        ensures { IsTrue result ↔ ((graph_seat self.now seat).sets + 1 < set_limit) }
    {
        self.set_count(seat) < SET_LIMIT - 1
    }

    fn compares(&self, seat: u8, a: u8, b: u8, reply: Reply) -> bool
        ensures { IsTrue result ↔ Compares (register_value self.now seat a) (register_value self.now seat b) reply }
    {
        let same = self.register(seat, a).value == self.register(seat, b).value;
        match reply {
            Reply::Yes => same,
            Reply::No => !same,
            _ => false,
        }
    }

    fn has_length(&self, seat: u8, r: u8, reply: Reply) -> bool
        ensures { IsTrue result ↔
            (reply ≡ length_reply (target_node self.now (register_value self.now seat r))) }
    {
        match (self.target(self.register(seat, r).value), reply) {
            (Some(object), Reply::Length(n)) => object.len() == n as usize,
            (None, Reply::NoObject) => true,
            _ => false,
        }
    }
}
