ghost use Rattle.std.specs.Prelude.{◌≡◌, ◌+◌, ◌-◌, ◌<◌, ◌≤◌, ◌^◌, length, drop, slice_get};

use crate::log::{CountsEntries, Entries, ShowsLast, ShowsRecent};
use crate::point::Point;
use crate::seat::SeatParty;
use crate::seat::looks::Looks;
use crate::seat::register::Register;
use heap_model::{Command, Entry};

impl SeatParty {
    /// The seat's entries, in their order.
    pub fn entries(&self) -> &[Entry]
        ensures { result.now ≡ self.now.seat.mine }
    {
        self.mine.entries()
    }

    /// The seat's entries alone.
    pub fn into_entries(self) -> Vec<Entry>
        ensures { result.items ≡ self.seat.mine }
    {
        let SeatParty { mine, .. } = self;
        mine.into_entries()
    }
}

impl<L: ShowsRecent> SeatParty<L> {
    /// The seat's entries behind those that were forgotten.
    pub fn recent(&self) -> &[Entry]
        ensures recent { result.now ≡ drop self.now.forgotten self.now.seat.mine }
        ensures within { self.now.forgotten ≤ length self.now.seat.mine }
    {
        self.mine.recent()
    }

    /// The entries so far may be forgotten.
    pub fn forget(&mut self)
        ensures same { self.new.seat ≡ self.old.seat }
        ensures spare { self.old.spare ≤ self.new.spare }
        ensures forgotten { self.new.forgotten ≡ L.forgets self.old.forgotten (length self.old.seat.mine) }
    {
        self.mine.forget();
    }
}

impl<L: CountsEntries> SeatParty<L> {
    /// The number of its entries.
    pub fn count(&self) -> usize
        ensures count { result ≡ length self.now.seat.mine }
        ensures within { self.now.spare + length self.now.seat.mine < 2 ^ 64 }
    {
        self.mine.count()
    }
}

impl<L: ShowsLast> SeatParty<L> {
    /// The entry that was added last; none where there are none.
    pub fn last(&self) -> Option<Entry>
        ensures { result ≡ slice_get self.now.seat.mine (length self.now.seat.mine - 1) }
    {
        self.mine.last()
    }
}

impl<L: Entries> SeatParty<L> {
    /// For how many more entries there is room.
    pub fn spare(&self) -> usize
        ensures { result ≡ self.now.spare }
    {
        self.mine.spare()
    }

    /// The phase that it answered last.
    pub fn answered(&self) -> u64
        ensures { result ≡ self.now.seat.answered }
    {
        self.answered
    }

    /// How many objects it has made.
    pub fn made(&self) -> u32
        ensures { result ≡ self.now.seat.made }
    {
        self.made
    }

    /// How many sets it has done.
    pub fn sets(&self) -> u64
        ensures { result ≡ self.now.seat.sets }
    {
        self.sets
    }

    /// The fragments that it keeps between two calls.
    pub fn reserve(&self) -> &[u16]
        ensures { result.now ≡ self.now.seat.reserve }
    {
        self.reserve.as_slice()
    }

    /// The group that its next claim goes to first.
    pub fn cursor(&self) -> u16
        ensures { result ≡ self.now.seat.cursor }
    {
        self.cursor
    }

    /// The fragments that its call in flight has claimed and not borne.
    #[inline(always)]
    pub fn hand(&self) -> &[u16]
        ensures { result.now ≡ self.now.seat.hand }
    {
        self.hands.hand()
    }

    /// The fragments of the object that its call in flight makes.
    #[inline(always)]
    pub fn body(&self) -> &[u16]
        ensures { result.now ≡ self.now.seat.body }
    {
        self.hands.body()
    }

    /// Its registers.
    pub fn registers(&self) -> &[Register]
        ensures { result.now ≡ self.now.seat.registers }
    {
        &self.registers
    }

    /// The call in flight, or the last one.
    pub fn command(&self) -> Command
        ensures { result ≡ self.now.seat.command }
    {
        self.command
    }

    /// Where it stands in its call.
    pub fn point(&self) -> Point
        ensures { result ≡ self.now.seat.point }
    {
        self.point
    }

    /// The fragment that its call has reached on the way to a field.
    pub fn reached(&self) -> u16
        ensures { result ≡ self.now.seat.reached }
    {
        self.reached
    }

    /// The word of its fragment in which that field stands; 0 until the object's meta is loaded.
    pub fn part(&self) -> u8
        ensures { result ≡ self.now.seat.part }
    {
        self.part
    }

    /// What it has found out by the inner calls of its collects.
    pub fn looks(&self) -> Looks
        ensures { result ≡ self.now.seat.looks }
    {
        self.looks
    }

    /// How often it found another seat behind the phase, up to the largest number of 64 bits.
    pub fn waits(&self) -> u64
        ensures { result ≡ self.now.seat.looks.waits }
    {
        self.looks.waits
    }

    /// Whether it has left.
    pub fn left(&self) -> bool
        ensures { result ≡ self.now.seat.left }
    {
        self.left
    }
}
