ghost use Rattle.std.specs.Prelude.{◌≡◌, ◌<◌, ◌≤◌};
ghost use Rattle.std.specs.Option.{SomeIff};
ghost use Rattle.heap_model.specs.Board.{board_fields, board_fragments};
ghost use Rattle.heap_model.specs.Heap.{IsHeap};

use crate::command::record_fragments;
use crate::limits::{MOST_BOARD, MOST_GROUPS, MOST_SEATS, MOST_SPINE};

/// The sizes of a heap: groups of fragments, granted spine words, seats, and fields of the board.
#[derive(Clone, Copy, Debug, PartialEq, Eq)]
pub struct Heap {
    pub groups: u16,
    pub spine: u16,
    pub seats: u8,
    pub board: u8,
}

impl Heap {
    /// A heap of these sizes, where they are within the limits.
    pub fn make(groups: u16, spine: u16, seats: u8, board: u8) -> Option<Heap>
        ensures { SomeIff result (IsHeap (record { groups = groups; spine = spine; seats = seats; board = board })) (record { groups = groups; spine = spine; seats = seats; board = board }) }
    {
        let room = 1 <= groups && groups <= MOST_GROUPS && spine <= MOST_SPINE;
        let places = 1 <= seats && seats <= MOST_SEATS && 1 <= board && board <= MOST_BOARD;
        if room && places {
            Some(Heap {
                groups,
                spine,
                seats,
                board,
            })
        } else {
            None
        }
    }

    /// The fields of the board.
    pub fn board_fields(&self) -> u16
        ensures { result ≡ board_fields self.now }
    {
        self.board.into()
    }

    /// The fragments of the board.
    pub fn board_fragments(&self) -> u32
        ensures { result ≡ board_fragments self.now }
    {
        record_fragments(self.board_fields())
    }
}
