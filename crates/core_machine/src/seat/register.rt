ghost use Rattle.std.specs.Prelude.{◌≡◌};
ghost use Rattle.core_machine.specs.seat.Registers.{value_of, register_head, register_word, IsSmall};

use heap_model::{Id, Value};
use heap_words::{Cell, Kind};

/// What a seat's register holds; an object by its first fragment and its id.
#[derive(Clone, Copy)]
pub enum Register {
    Nil,
    Number(u32),
    Object { head: u16, id: Id },
}

impl Register {
    /// The value that the register holds.
    pub fn value(&self) -> Value
        ensures { result ≡ value_of self.now }
    {
        match *self {
            Register::Nil => Value::Nil,
            Register::Number(number) => Value::Number(number),
            Register::Object { id, .. } => Value::Object(id),
        }
    }

    /// The first fragment of the object that it holds.
    pub fn head(&self) -> Option<u16>
        ensures { result ≡ register_head self.now }
    {
        match *self {
            Register::Object { head, .. } => Some(head),
            Register::Nil | Register::Number(_) => None,
        }
    }

    /// The word of a field with the value that it holds.
    pub fn word(&self, stamp: u32) -> u64
        requires { IsSmall self.now }
        ensures { result ≡ register_word self.now stamp }
    {
        let (kind, value) = match *self {
            Register::Nil => (Kind::Nil, 0),
            Register::Number(number) => (Kind::Number, number),
            Register::Object { head, .. } => (Kind::Reference, u32::from(head)),
        };
        Cell { kind, value, stamp }.pack()
    }
}
