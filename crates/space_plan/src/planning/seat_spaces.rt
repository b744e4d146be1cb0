ghost use Rattle.std.specs.Prelude.{◌≡◌, ◌<◌, ◌≤◌, ◌+◌, ◌*◌, ◌^◌, ◌++◌, ◌∷◌, [], ℕ, List, slice_set};
ghost use Rattle.heap_model.specs.declared.entry.Entry.{Entry as AnEntry};
ghost use Rattle.heap_model.specs.declared.heap.Heap.{Heap};
ghost use Rattle.heap_model.specs.account.Noting.{IsSeatBelow};

use crate::planning::seat_space::SeatSpace;
use heap_model::Entry;

/// What each seat took and spent.
#[derive(Drop)]
pub struct SeatSpaces {
    spaces: [SeatSpace; 16],
}

/// The fragments that seats had together right after their last replies, and those that they took since.
#[derive(Clone, Copy)]
pub struct SpaceSums {
    pub reserves: u64,
    pub since: u64,
}

impl SeatSpaces {
    ghost use Rattle.space_plan.specs.plan.Seats.{SeatTells, SeatFits, SeatsTell, SeatsFit, SumsTell, SumsFit, space_at};

    /// The seats before the first entry.
    pub fn opening() -> SeatSpaces
        ensures tells { (heap : Heap) → heap.seats ≤ 16 → SeatsTell heap result [] }
        ensures fits { SeatsFit 0 result }
    {
        SeatSpaces {
            spaces: [SeatSpace::OPENING; 16],
        }
    }

    fn space(&self, seat: u8) -> SeatSpace
        requires { seat < 16 }
        ensures { result ≡ space_at self.now.spaces seat }
    {
        self.spaces[seat as usize]
    }

    fn put(&mut self, seat: u8, space: SeatSpace)
        requires { seat < 16 }
        ensures puts { self.new.spaces ≡ slice_set self.old.spaces seat space }
        ensures put { space_at self.new.spaces seat ≡ space }
    {
        self.spaces[seat as usize] = space;
    }

    /// Counts the entry for its seat, where it has one.
    pub fn count(&mut self, entry: &Entry)
        requires few { SeatsFit (2 ^ 22) self.old }
        requires seat { IsSeatBelow 16 entry.now }
        ensures tells { (heap : Heap) (history : List AnEntry) → IsSeatBelow heap.seats entry.now →
            SeatsTell heap self.old history → SeatsTell heap self.new (history ++ entry.now ∷ []) }
        ensures fits { (n : ℕ) → SeatsFit n self.old → SeatsFit (n + 1) self.new }
    {
        if let Some(seat) = entry.seat() {
            let space = self.space(seat).after(entry);
            self.put(seat, space);
        }
    }

    /// What these seats, from the first on, have together.
    pub fn sums(&self, seats: u8) -> SpaceSums
        requires seats { seats ≤ 16 }
        requires few { SeatsFit (2 ^ 22) self.now }
        ensures tells { (heap : Heap) (history : List AnEntry) → seats ≡ heap.seats →
            SeatsTell heap self.now history → SumsTell heap result history }
        ensures fits { (n : ℕ) → SeatsFit n self.now → SumsFit n result }
    {
        let mut reserves = 0;
        let mut since = 0;
        for seat in 0..seats {
            let space = self.space(seat);
            reserves += space.reserve();
            since += space.since();
        }
        SpaceSums { reserves, since }
    }
}
