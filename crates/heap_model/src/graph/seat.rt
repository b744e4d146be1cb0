ghost use Rattle.std.specs.Prelude.{◌≡◌, ◌<◌, ◌≤◌, ◌+◌, ◌^◌, ◌∷◌, [], ◌++◌, true, length, replicate, slice_get, slice_index_or, slice_set, OnOk, OnErr};
ghost use Rattle.std.specs.Option.{option_copied};
ghost use Rattle.heap_model.specs.declared.id.Value.TheVariants.{Object as Reference};

use crate::graph::cell::Cell;
use crate::graph::object::Object;
use crate::id::{Id, Value};
use crate::limits::REGISTER_COUNT;
use std::alloc::{AllocFailed, Global};
use std::marker::Model;

/// A seat of the heap, as one that never collects keeps it.
#[derive(Drop)]
pub struct Seat {
    registers: [Cell; REGISTER_COUNT],
    objects: Vec<Object>,
    sets: u64,
    left: bool,
}

impl Model for Seat {
    ghost use Rattle.std.specs.Prelude.{◌≤◌, ◌^◌, length};
    ghost use Rattle.heap_model.specs.Limits.{name_limit};
    ghost use Rattle.heap_model.specs.graph.Graph.{GraphSeat};

    ghost Value = { GraphSeat };

    ghost view = { λ s. record { registers = s.registers; objects = s.objects.items; sets = s.sets; left = s.left } };

    ghost invariant = { λ s. length s.objects.items ≤ name_limit };
}

impl Seat {
    ghost use Rattle.heap_model.specs.Limits.{last_register, name_limit, register_count, set_limit};
    ghost use Rattle.heap_model.specs.graph.Graph.{opening_graph_seat, unseen, unset};
    ghost use Rattle.heap_model.specs.graph.Changes.{with_object_cell};

    pub fn new(alloc: Global) -> Seat
        ensures { result ≡ opening_graph_seat }
    {
        let mut registers = [Cell::unseen(Value::Nil); REGISTER_COUNT];
        registers[0] = Cell::unseen(Value::Object(Id::Board));
        Seat {
            registers,
            objects: Vec::new(alloc),
            sets: 0,
            left: false,
        }
    }

    pub fn has_left(&self) -> bool
        ensures { result ≡ self.now.left }
    {
        self.left
    }

    pub fn sets(&self) -> u64
        ensures { result ≡ self.now.sets }
    {
        self.sets
    }

    /// How many objects the seat made.
    pub fn made(&self) -> usize
        ensures count { result ≡ length self.now.objects }
        ensures few { result ≤ name_limit }
    {
        self.objects.len()
    }

    pub fn registers(&self) -> &[Cell]
        ensures { result.now ≡ self.now.registers }
    {
        &self.registers
    }

    pub fn register(&self, r: u8) -> Cell
        ensures { result ≡ slice_index_or self.now.registers r unset }
    {
        self.registers
            .get(r as usize)
            .copied()
            .unwrap_or(Cell::unseen(Value::Nil))
    }

    pub fn object(&self, count: u32) -> Option<&Object>
        ensures { option_copied result ≡ slice_get self.now.objects count }
    {
        self.objects.get(count as usize)
    }

    /// Puts a value into the register, with the stamp under which it was seen.
    pub fn put(&mut self, d: u8, cell: Cell)
        requires { d ≤ last_register }
        ensures { self.new ≡ record self.old { registers = slice_set self.old.registers d cell } }
    {
        self.registers[d as usize] = cell;
    }

    /// Adds an object under this id, which the register then holds.
    pub fn add(&mut self, d: u8, id: Id, object: Object) -> Result<(), AllocFailed<Object>>
        requires target { d ≤ last_register }
        requires few { length self.old.objects < name_limit }
        ensures added { OnOk result (self.new ≡ record self.old {
          registers = slice_set self.old.registers d (unseen (Reference id));
          objects = self.old.objects ++ object ∷ [];
        }) }
        ensures unchanged { OnErr result (self.new ≡ self.old) }
    {
        self.objects.push(object)?;
        self.registers[d as usize] = Cell::unseen(Value::Object(id));
        Ok(())
    }

    /// Puts another cell in the place of one of an object, where there is one.
    pub fn set_cell(&mut self, count: u32, i: u32, cell: Cell)
        ensures { self.new ≡ with_object_cell self.old count i cell }
    {
        if (count as usize) < self.objects.len() {
            let object = &mut self.objects[count as usize];
            object.set(i, cell);
        }
    }

    pub fn count_set(&mut self)
        requires { self.old.sets + 1 < set_limit }
        ensures { self.new ≡ record self.old { sets = self.old.sets + 1 } }
    {
        self.sets += 1;
    }

    pub fn leave(&mut self)
        ensures { self.new ≡ record self.old { registers = replicate register_count unset; left = true } }
    {
        self.registers = [Cell::unseen(Value::Nil); REGISTER_COUNT];
        self.left = true;
    }
}
