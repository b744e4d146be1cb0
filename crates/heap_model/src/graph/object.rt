ghost use Rattle.std.specs.Prelude.{◌≡◌, length, slice_get, IfOk};

use crate::graph::cell::Cell;
use crate::id::Value;
use std::alloc::{AllocError, Global};
use std::marker::Model;

/// A record or an array.
#[derive(Drop)]
pub struct Object {
    array: bool,
    cells: Vec<Cell>,
}

impl Model for Object {
    ghost use Rattle.std.specs.Prelude.{◌<◌, ◌^◌, length};
    ghost use Rattle.heap_model.specs.graph.Graph.{Node};

    ghost Value = { Node };

    ghost view = { λ o. record { array = o.array; cells = o.cells.items } };

    ghost invariant = { λ o. length o.cells.items < 2 ^ 16 };
}

impl Object {
    ghost use Rattle.heap_model.specs.graph.Graph.{fresh};
    ghost use Rattle.heap_model.specs.graph.Changes.{with_cell};
    ghost use Rattle.heap_model.specs.graph.Sizes.{fragments_of, spine_words_of};

    pub fn new(alloc: Global, array: bool, cells: u16) -> Result<Object, AllocError>
        ensures { IfOk result (λ object. object ≡ fresh array cells) }
    {
        let unset = Cell {
            value: Value::Nil,
            stamp: 0,
        };
        Ok(Object {
            array,
            cells: vec![in alloc; unset; cells as usize]?,
        })
    }

    pub fn len(&self) -> usize
        ensures { result ≡ length self.now.cells }
    {
        self.cells.len()
    }

    pub fn cells(&self) -> &[Cell]
        ensures { result.now ≡ self.now.cells }
    {
        &self.cells
    }

    pub fn fragments(&self) -> u32
        ensures { result ≡ fragments_of self.now }
    {
        let cells = self.cells.len() as u32;
        if self.array {
            1 + cells.div_ceil(4)
        } else {
            1 + cells.saturating_sub(2).div_ceil(3)
        }
    }

    pub fn is_array(&self) -> bool
        ensures { result ≡ self.now.array }
    {
        self.array
    }

    pub fn spine_words(&self) -> u32
        ensures { result ≡ spine_words_of self.now }
    {
        if self.array {
            (self.cells.len() as u32).div_ceil(4)
        } else {
            0
        }
    }

    pub fn cell(&self, i: u32) -> Option<Cell>
        ensures { result ≡ slice_get self.now.cells i }
    {
        self.cells.get(i as usize).copied()
    }

    /// Puts another cell in the place of one, where there is one.
    pub fn set(&mut self, i: u32, cell: Cell)
        ensures { self.new ≡ with_cell self.old i cell }
    {
        if let Some(place) = self.cells.get_mut(i as usize) {
            *place = cell;
        }
    }
}
