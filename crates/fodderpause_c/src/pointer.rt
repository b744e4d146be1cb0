ghost use Rattle.std.specs.Prelude.{◌≡◌, Option, Some, None, IsSome};
ghost use Rattle.fodderpause_c.specs.declared.party.Party.{Party as Parties};

use crate::party::Party;
use handle_box::RawBox;
use std::alloc::Global;
use std::marker::Model;
use std::ptr::null_mut;

/// The pointer of the box of a party, or of none, without the party's type: so C may have it.
#[repr(C)]
pub struct PartyPointer {
    pub(crate) at: *mut u8,
    pub(crate) alloc: Global,
    pub ghost party: { Option Parties },
}

impl Model for PartyPointer {
    ghost use Rattle.fodderpause_c.specs.Pointers.{owns_party};

    ghost also_owns = { λ pointer. owns_party pointer.alloc pointer.at pointer.party };
}

impl PartyPointer {
    /// The pointer of no box.
    pub fn none(alloc: Global) -> PartyPointer
        ensures { result.party ≡ None }
    {
        PartyPointer {
            at: null_mut(),
            alloc,
        }
    }

    /// The pointer of this box.
    pub fn of(boxed: RawBox<Party, Global>) -> PartyPointer
        ensures { result.party ≡ Some boxed.value }
    {
        let RawBox { at, alloc } = boxed;
        PartyPointer {
            at: at as *mut u8,
            alloc,
        }
    }

    /// The box of this pointer.
    pub fn into_raw_box(self) -> RawBox<Party, Global>
        requires { IsSome self.party }
        ensures { Some result.value ≡ self.party }
    {
        let PartyPointer { at, alloc } = self;
        RawBox {
            at: at as *mut Party,
            alloc,
        }
    }
}

// What it owns may go to another thread as its party may.
unsafe impl Send for PartyPointer {}
