ghost use Rattle.std.specs.Prelude.{◌≡◌, ◌<◌, ◌≤◌, ◌+◌, ◌^◌, length, OnOk, OnErr};
ghost use Rattle.heap_model.specs.declared.id.Id.TheVariants.{Made};

use crate::command::Command;
use crate::entry::Entry;
use crate::graph::Graph;
use crate::graph::cell::Cell;
use crate::graph::object::Object;
use crate::id::{Id, Value};
use crate::limits::STAMP_LIMIT;
use crate::reply::Reply;
use std::alloc::AllocError;

impl Graph {
    ghost use Rattle.heap_model.specs.Limits.{last_register};
    ghost use Rattle.heap_model.specs.graph.Objects.{graph_seat};
    ghost use Rattle.heap_model.specs.graph.Graph.{fresh};
    ghost use Rattle.heap_model.specs.graph.Growth.{after_entry, after_reply};
    ghost use Rattle.heap_model.specs.graph.Changes.{add, with_register, write, set_cell, leave};
    ghost use Rattle.heap_model.specs.Command.{IsCommand};
    ghost use Rattle.heap_model.specs.graph.Legal.{Accepts, IsPresent};
    ghost use Rattle.heap_model.specs.graph.Replies.{Says};

    pub(super) fn grow(&mut self, entry: &Entry) -> Result<(), AllocError>
        requires { Accepts self.old entry.now }
        ensures grown { OnOk result (self.new ≡ after_entry self.old entry.now) }
        ensures unchanged { OnErr result (self.new ≡ self.old) }
    {
        let Entry::Said {
            seat,
            command,
            reply,
        } = *entry
        else {
            return Ok(());
        };
        self.grow_by_reply(seat, command, reply)
    }

    fn grow_by_reply(&mut self, seat: u8, command: Command, reply: Reply) -> Result<(), AllocError>
        requires present { IsPresent self.old seat }
        requires in_range { IsCommand command }
        requires said { Says self.old seat command reply }
        ensures grown { OnOk result (self.new ≡ after_reply self.old seat command reply) }
        ensures unchanged { OnErr result (self.new ≡ self.old) }
    {
        match (command, reply) {
            (Command::New { d, fields }, Reply::Made(id)) => self.add(seat, d, id, false, fields)?,
            (Command::Array { d, cells }, Reply::Made(id)) => self.add(seat, d, id, true, cells)?,
            (Command::Get { d, .. }, Reply::Got { value, stamp }) => {
                self.put(seat, d, Cell { value, stamp })
            }
            (Command::Set { r, i, v } | Command::Cas { r, i, v, .. }, Reply::Was(_)) => {
                self.set(seat, r, i, v)
            }
            (Command::Cas { .. }, Reply::Now(_)) => {}
            (Command::Num { d, n }, _) => self.put(seat, d, Cell::unseen(Value::Number(n))),
            (Command::Nil { d }, _) => self.put(seat, d, Cell::unseen(Value::Nil)),
            (Command::Copy { d, r }, _) => {
                let cell = self.register(seat, r);
                self.put(seat, d, cell);
            }
            (Command::Leave, _) => self.leave(seat),
            _ => {}
        }
        Ok(())
    }

    /// Makes an object of the seat, which its register then holds.
    fn add(&mut self, seat: u8, d: u8, id: Id, array: bool, cells: u16) -> Result<(), AllocError>
        requires seat { seat < length self.old.seats }
        requires target { d ≤ last_register }
        requires next { id ≡ Made seat (length (graph_seat self.old seat).objects) }
        ensures added { OnOk result (self.new ≡ add self.old seat d (fresh array cells)) }
        ensures unchanged { OnErr result (self.new ≡ self.old) }
    {
        let object = Object::new(self.alloc, array, cells)?;
        let party = &mut self.seats[seat as usize];
        party.add(d, id, object)?;
        Ok(())
    }

    fn put(&mut self, seat: u8, d: u8, cell: Cell)
        requires seat { seat < length self.old.seats }
        requires target { d ≤ last_register }
        ensures { self.new ≡ with_register self.old seat d cell }
    {
        let party = &mut self.seats[seat as usize];
        party.put(d, cell);
    }

    /// Does a set of the seat, or a cas that swaps: the value of its register `v` goes into a cell.
    fn set(&mut self, seat: u8, r: u8, i: u32, v: u8)
        requires seat { seat < length self.old.seats }
        requires sets { (graph_seat self.old seat).sets + 1 < 2 ^ 63 }
        ensures { self.new ≡ set_cell self.old seat r i v }
    {
        let place = self.register(seat, r).value;
        let value = self.register(seat, v).value;
        let party = &mut self.seats[seat as usize];
        party.count_set();
        let count = party.sets() % u64::from(STAMP_LIMIT);
        let stamp = (seat as u32 + 1) * STAMP_LIMIT + count as u32;
        self.write(place, i, Cell { value, stamp });
    }

    /// Puts another cell in the place of one of what the value refers to, where there is one.
    fn write(&mut self, value: Value, i: u32, cell: Cell)
        ensures { self.new ≡ write self.old value i cell }
    {
        match value {
            Value::Object(Id::Board) => self.board.set(i, cell),
            Value::Object(Id::Made { seat, count }) => {
                if (seat as usize) < self.seats.len() {
                    let party = &mut self.seats[seat as usize];
                    party.set_cell(count, i, cell);
                }
            }
            Value::Nil | Value::Number(_) => {}
        }
    }

    fn leave(&mut self, seat: u8)
        requires { seat < length self.old.seats }
        ensures { self.new ≡ leave self.old seat }
    {
        let party = &mut self.seats[seat as usize];
        party.leave();
    }
}
