ghost use Rattle.std.specs.Prelude.{◌≡◌, ℕ, slice_index_or, slice_set};
ghost use Rattle.heap_model.specs.declared.id.Value.TheVariants.{Nil};
ghost use Rattle.heap_model.specs.declared.entry.Entry.TheVariants.{Said};

use crate::merging::pending_gets::{PendingGet, kind_of};
use heap_model::limits::REGISTER_COUNT;
use heap_model::{Command, Entry, Id, Reply, Value};

/// What the registers of a seat hold, as its log shows it.
#[derive(Drop)]
pub struct Registers {
    values: [Value; REGISTER_COUNT],
}

impl Registers {
    ghost use Rattle.log_merge.specs.Registers.{opening_registers, registers_after, get_of};

    /// The registers of a seat that did nothing yet.
    pub fn new() -> Registers
        ensures { result.values ≡ opening_registers }
    {
        let mut values = [Value::Nil; REGISTER_COUNT];
        values[0] = Value::Object(Id::Board);
        Registers { values }
    }

    fn value(&self, r: u8) -> Value
        ensures { result ≡ slice_index_or self.now.values r Nil }
    {
        self.values.get(r as usize).copied().unwrap_or(Value::Nil)
    }

    fn put(&mut self, d: u8, value: Value)
        ensures { self.new.values ≡ slice_set self.old.values d value }
    {
        if (d as usize) < REGISTER_COUNT {
            self.values[d as usize] = value;
        }
    }

    /// The get that the entry is, if it is one that found a cell, or a cas that left it.
    pub fn get_of(&self, entry: &Entry) -> Option<PendingGet>
        ensures { result ≡ get_of self.now.values entry.now }
    {
        let Entry::Said { command, reply, .. } = *entry else {
            return None;
        };
        match (command, reply) {
            (Command::Get { r, i, .. }, Reply::Got { stamp, .. })
            | (Command::Cas { r, i, .. }, Reply::Now(stamp)) => kind_of(self.value(r), i, stamp),
            _ => None,
        }
    }

    /// Goes over an entry of the seat.
    pub fn pass(&mut self, entry: &Entry)
        ensures { self.new.values ≡ registers_after self.old.values entry.now }
    {
        if let Entry::Said { command, reply, .. } = *entry {
            self.pass_reply(command, reply);
        }
    }

    fn pass_reply(&mut self, command: Command, reply: Reply)
        ensures { (seat : ℕ) → self.new.values ≡ registers_after self.old.values (Said seat command reply) }
    {
        match (command, reply) {
            (Command::New { d, .. }, Reply::Made(id)) => self.put(d, Value::Object(id)),
            (Command::Array { d, .. }, Reply::Made(id)) => self.put(d, Value::Object(id)),
            (Command::Get { d, .. }, Reply::Got { value, .. }) => self.put(d, value),
            (Command::Num { d, n }, _) => self.put(d, Value::Number(n)),
            (Command::Nil { d }, _) => self.put(d, Value::Nil),
            (Command::Copy { d, r }, _) => {
                let value = self.value(r);
                self.put(d, value);
            }
            (Command::Leave, _) => self.values = [Value::Nil; REGISTER_COUNT],
            _ => {}
        }
    }
}
