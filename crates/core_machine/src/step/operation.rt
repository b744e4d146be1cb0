ghost use Rattle.std.specs.Prelude.{◌≡◌};
ghost use Rattle.core_machine.specs.table.Operation.{operation_result};

/// What an atomic step does with the one word that it touches; it finds the word as it was before.
#[derive(Clone, Copy)]
pub enum Operation {
    /// The word stays.
    Load,
    /// The word becomes this one, and what was found isn't looked at.
    Store(u64),
    /// The word becomes this one.
    Exchange(u64),
    /// The word becomes the new one where it is the old one, and else stays.
    CompareExchange { old: u64, new: u64 },
    /// These bits are set.
    Or(u64),
    /// These bits alone are kept.
    And(u64),
    /// The word grows by this number, modulo 2^64.
    Add(u64),
    /// The word falls by this number, modulo 2^64.
    Subtract(u64),
}

impl Operation {
    /// The word that it leaves where it found this one.
    #[inline(always)]
    pub fn written(&self, found: u64) -> u64
        ensures { result ≡ operation_result self.now found }
    {
        match *self {
            Operation::Load => found,
            Operation::Store(word) | Operation::Exchange(word) => word,
            Operation::CompareExchange { old, new } => { if found == old { new } else { found } },
            Operation::Or(bits) => found | bits,
            Operation::And(bits) => found & bits,
            Operation::Add(number) => found.wrapping_add(number),
            Operation::Subtract(number) => found.wrapping_sub(number),
        }
    }
}
