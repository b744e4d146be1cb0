ghost use Rattle.std.specs.Prelude.{◌≡◌};
ghost use Rattle.heap_words.specs.Group.{group_of, group_word};

/// The control bits of sixteen fragments in a row: bit j of each mask is that of fragment j.
#[derive(Clone, Copy, Debug, PartialEq, Eq)]
pub struct Group {
    /// Held by a seat, or an object's.
    pub taken: u16,
    /// An object's.
    pub born: u16,
    /// Grey or black in the collector's marking.
    pub marked: u16,
    /// Black: the marking has nothing more to do there.
    pub scanned: u16,
}

impl Group {
    /// The word of the group.
    #[tactic(auto, using(crate::proofs::Fields::group_masks))]
    pub fn pack(&self) -> u64
        ensures { result ≡ group_word self.now }
    {
        let Group {
            taken,
            born,
            marked,
            scanned,
        } = *self;
        u64::from(scanned) << 48
            | u64::from(marked) << 32
            | u64::from(born) << 16
            | u64::from(taken)
    }

    /// The group that packs to this word.
    pub fn read(word: u64) -> Group
        ensures { result ≡ group_of word }
    {
        Group {
            taken: (word & 0xffff) as u16,
            born: (word >> 16 & 0xffff) as u16,
            marked: (word >> 32 & 0xffff) as u16,
            scanned: (word >> 48) as u16,
        }
    }
}
