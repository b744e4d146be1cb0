ghost use Rattle.std.specs.Prelude.{◌≡◌, ◌↔◌, Some, None, IsSome, IsTrue, is_some, MatchOption};

use crate::party::Party;
use crate::pointer::PartyPointer;
use handle_box::RawBox;
use std::alloc::Global;
use std::mem::replace;

/// What C has of a party: the pointer of its box, and whether there is one.
#[repr(C)]
pub struct Handle {
    pub(crate) pointer: PartyPointer,
    held: bool,
    ghost tells: { IsTrue held ↔ IsSome pointer.party },
}

impl Handle {
    /// Whether there is a party behind it.
    pub fn is_held(&self) -> bool
        ensures { result ≡ is_some self.now.pointer.party }
    {
        self.held
    }

    /// Puts the box behind it, where there is none.
    pub fn put(&mut self, party: Box<Party, Global>)
        requires { self.old.pointer.party ≡ None }
        ensures { self.new.pointer.party ≡ Some party.value }
    {
        let pointer = PartyPointer::of(RawBox::of(party));
        // The pointer that goes was of no box.
        let PartyPointer { at: _, alloc: _ } = replace(&mut self.pointer, pointer);
        self.held = true;
    }

    /// Takes the box from behind it, where there is one.
    pub fn take(&mut self, alloc: Global) -> Option<Box<Party, Global>>
        ensures taken { MatchOption result (self.old.pointer.party ≡ None) (λ party. self.old.pointer.party ≡ Some party.value) }
        ensures left { self.new.pointer.party ≡ None }
    {
        if !self.held {
            return None;
        }
        let pointer = replace(&mut self.pointer, PartyPointer::none(alloc));
        self.held = false;
        Some(pointer.into_raw_box().into_box())
    }
}
