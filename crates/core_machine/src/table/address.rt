ghost use Rattle.std.specs.Prelude.{◌≡◌, ◌*◌, ◌<◌, ◌^◌, ◌↔◌};
ghost use Rattle.core_machine.specs.table.Layout.{spine_index as spine_index_of, index_of, InTable, HasWord, table_length};
ghost use Rattle.heap_model.specs.Heap.{IsHeap};

use heap_model::Heap;

/// One word of a heap's table.
#[derive(Clone, Copy)]
pub enum Address {
    /// The phase.
    Phase,
    /// The phase that a seat answered, or that it left.
    Answer(u8),
    /// The spine words that are granted.
    Budget,
    /// The place of the next spine word.
    Spot,
    /// The control word of a group.
    Control(u16),
    /// One of the four words of a fragment.
    Word { fragment: u16, part: u8 },
    /// A word of one half of the spine space.
    Spine { half: u8, offset: u32 },
}

/// Where a spine word stands behind the fragments; past both halves where its offset is too large.
#[inline(always)]
fn spine_index(spine: usize, half: u8, offset: usize) -> usize
    requires spine { spine < 2 ^ 32 }
    requires half { half < 2 }
    requires offset { offset < 2 ^ 32 }
    ensures index { result ≡ spine_index_of spine half offset }
    ensures within { offset < 2 * spine ↔ result < 4 * spine }
{
    if offset >= 2 * spine {
        return 2 * offset + half as usize;
    }
    if half == 0 {
        offset
    } else {
        2 * spine + offset
    }
}

impl Address {
    /// Where the word stands in the table; past its end where a spine word's offset is too large.
    #[inline(always)]
    pub fn index(&self, heap: &Heap) -> usize
        requires limits { IsHeap heap.now }
        requires in_table { InTable heap.now self.now }
        ensures index { result ≡ index_of heap.now self.now }
        ensures within { HasWord heap.now self.now ↔ result < table_length heap.now }
    {
        let groups = heap.groups as usize;
        match *self {
            Address::Phase => 0,
            Address::Answer(seat) => 1 + seat as usize,
            Address::Budget => 17,
            Address::Spot => 18,
            Address::Control(group) => 19 + group as usize,
            Address::Word { fragment, part } => 19 + groups + 4 * fragment as usize + part as usize,
            Address::Spine { half, offset } => {
                19 + 65 * groups + spine_index(heap.spine as usize, half, offset as usize)
            }
        }
    }
}
