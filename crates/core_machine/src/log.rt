ghost use Rattle.std.specs.Prelude.{◌≡◌, ℕ, ◌+◌, ◌-◌, ◌<◌, ◌≤◌, ◌^◌, List, length, drop, [], ◌∷◌, ◌++◌, slice_get, OnOk, OnErr};

use heap_model::{Entry, Memory};
use std::alloc::Global;

pub(crate) mod counted;
pub(crate) mod kept;
pub(crate) mod last;
pub(crate) mod recent;
pub(crate) mod told;

/// A log of a party's entries, to which the next is added. What it keeps of them in memory is its own.
pub trait Entries: Drop {
    ghost use Rattle.heap_model.specs.declared.entry.Entry.{Entry};

    /// The entries, in their order.
    ghost listed: { Self → List Entry };

    /// For how many more entries there is room.
    ghost left: { Self → ℕ };

    /// How many of the first entries it was asked to forget.
    ghost forgotten: { Self → ℕ };

    /// A log without entries.
    fn empty(alloc: Global) -> Self
        ensures { listed result ≡ [] };

    /// For how many more entries there is room.
    fn spare(&self) -> usize
        ensures { result ≡ left self.now };

    /// Makes room for at least `n` more entries.
    fn reserve(&mut self, n: usize) -> Result<(), Memory>
        ensures same { listed self.new ≡ listed self.old }
        ensures forgotten { forgotten self.new ≡ forgotten self.old }
        ensures more { left self.old ≤ left self.new }
        ensures room { OnOk result (n ≤ left self.new) }
        ensures memory { OnErr result (self.new ≡ self.old) };

    /// Adds an entry, for which there is room.
    fn push(&mut self, entry: Entry)
        requires { 0 < left self.old }
        ensures entries { listed self.new ≡ listed self.old ++ entry ∷ [] }
        ensures spare { left self.old ≤ left self.new + 1 }
        ensures no_more { left self.new ≤ left self.old }
        ensures forgotten { forgotten self.new ≡ forgotten self.old };
}

/// A log whose entries are counted, together with those for which there is room, by a number of 64 bits.
pub trait CountsEntries: Entries {
    /// The number of entries.
    fn count(&self) -> usize
        ensures count { result ≡ length (Self.listed self.now) }
        ensures within { Self.left self.now + length (Self.listed self.now) < 2 ^ 64 };
}

/// A log that shows its entries behind those that it forgot.
pub trait ShowsRecent: CountsEntries {
    /// How many of the first entries are forgotten once it was asked to forget, where so many were before and so many are listed.
    ghost forgets: { ℕ → ℕ → ℕ };

    /// The entries behind those that were forgotten.
    fn recent(&self) -> &[Entry]
        ensures recent { result.now ≡ drop (Self.forgotten self.now) (Self.listed self.now) }
        ensures within { Self.forgotten self.now ≤ length (Self.listed self.now) };

    /// The entries so far may be forgotten. A log that is there to keep them keeps them.
    fn forget(&mut self)
        ensures same { Self.listed self.new ≡ Self.listed self.old }
        ensures more { Self.left self.old ≤ Self.left self.new }
        ensures forgotten { Self.forgotten self.new ≡ forgets (Self.forgotten self.old) (length (Self.listed self.old)) };
}

/// A log that shows the entry that was added last.
pub trait ShowsLast: Entries {
    /// The last entry; none where there are none.
    fn last(&self) -> Option<Entry>
        ensures { result ≡ slice_get (Self.listed self.now) (length (Self.listed self.now) - 1) };
}
