ghost use Rattle.std.specs.Prelude.{◌≡◌, ◌*◌, ◌^◌};
ghost use Rattle.heap_words.specs.Kind.{kind_number, kind_of};

/// What a cell holds; its number stands in the two highest bits of the cell's word.
#[derive(Clone, Copy, Debug, PartialEq, Eq)]
pub enum Kind {
    /// Nothing.
    Nil,
    /// A number.
    Number,
    /// The fragment of an object's head.
    Reference,
    /// What the collector or the table has put there, and no program.
    Fixed,
}

impl Kind {
    /// The word with this kind and nothing else in it.
    pub fn pack(&self) -> u64
        ensures { result ≡ kind_number self.now * 2 ^ 62 }
    {
        match self {
            Kind::Nil => 0,
            Kind::Number => 1 << 62,
            Kind::Reference => 2 << 62,
            Kind::Fixed => 3 << 62,
        }
    }

    /// The kind of the cell that packs to this word.
    pub fn read(word: u64) -> Kind
        ensures { result ≡ kind_of word }
    {
        match word >> 62 {
            0 => Kind::Nil,
            1 => Kind::Number,
            2 => Kind::Reference,
            _ => Kind::Fixed,
        }
    }
}
