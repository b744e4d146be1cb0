ghost use Rattle.std.specs.Prelude.{◌≡◌, ◌+◌, ◌^◌, ◌++◌, ◌∷◌, [], ℕ, List, Some};
ghost use Rattle.heap_model.specs.declared.entry.Entry.{Entry as AnEntry};
ghost use Rattle.heap_model.specs.account.Noting.{seat_of};
ghost use Rattle.heap_model.specs.account.Windows.{is_reply_to};

use heap_model::{Effect, Entry};

/// What a seat took, and what it gave back or made into objects: up to now, and up to its last reply.
#[derive(Clone, Copy)]
pub struct SeatSpace {
    taken: u64,
    spent: u64,
    taken_then: u64,
    spent_then: u64,
}

/// Whether the entry is a reply to its seat.
fn is_reply(entry: &Entry) -> bool
    ensures { (number : ℕ) → seat_of entry.now ≡ Some number → result ≡ is_reply_to number entry.now }
{
    matches!(*entry, Entry::Said { .. })
}

impl SeatSpace {
    ghost use Rattle.space_plan.specs.plan.Seats.{SeatTells, SeatFits, reserve_of, since_of};

    pub const OPENING: SeatSpace = SeatSpace {
        taken: 0,
        spent: 0,
        taken_then: 0,
        spent_then: 0,
    };

    /// What it is after one more entry, which is the seat's own.
    pub fn after(self, entry: &Entry) -> SeatSpace
        requires few { SeatFits (2 ^ 22) self }
        ensures tells { (number : ℕ) (history : List AnEntry) → seat_of entry.now ≡ Some number →
            SeatTells number self history → SeatTells number result (history ++ entry.now ∷ []) }
        ensures fits { (n : ℕ) → SeatFits n self → SeatFits (n + 1) result }
    {
        let effect = Effect::of(entry);
        let taken = self.taken + effect.taken;
        let spent = self.spent + effect.given + effect.born;
        if is_reply(entry) {
            return SeatSpace {
                taken,
                spent,
                taken_then: taken,
                spent_then: spent,
            };
        }
        SeatSpace {
            taken,
            spent,
            ..self
        }
    }

    /// The fragments that the seat had right after its last reply, and 0 where it had spent more than it took.
    pub fn reserve(&self) -> u64
        ensures { result ≡ reserve_of self.now }
    {
        self.taken_then.saturating_sub(self.spent_then)
    }

    /// What the seat took since its last reply.
    pub fn since(&self) -> u64
        ensures { result ≡ since_of self.now }
    {
        self.taken.saturating_sub(self.taken_then)
    }
}
