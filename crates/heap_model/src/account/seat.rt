ghost use Rattle.std.specs.Prelude.{◌≡◌, ◌+◌, ◌<◌, ◌^◌};

use crate::account::effect::Effect;

/// What the account keeps of a seat: what its entries came to, what its and all entries had come to at its last reply,
/// which seats were behind the phase then, and the phase in which it left, if it has.
#[derive(Clone, Copy)]
pub struct SeatAccount {
    pub own: Effect,
    pub own_then: Effect,
    pub all_then: Effect,
    pub behind_then: [bool; 16],
    pub left: Option<u64>,
}

impl SeatAccount {
    pub const OPENING: SeatAccount = SeatAccount {
        own: Effect::NONE,
        own_then: Effect::NONE,
        all_then: Effect::NONE,
        behind_then: [false; 16],
        left: None,
    };

    pub fn taken(&self) -> u128
        ensures sum { result ≡ self.now.own.taken }
        ensures fits { result < 2 ^ 66 }
    {
        self.own.taken as u128
    }

    /// What the seat gave back or made into objects.
    pub fn spent(&self) -> u128
        ensures sum { result ≡ self.now.own.given + self.now.own.born }
        ensures fits { result < 2 ^ 66 }
    {
        self.own.given as u128 + self.own.born as u128
    }
}
