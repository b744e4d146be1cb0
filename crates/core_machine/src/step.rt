ghost use Rattle.std.specs.Prelude.{◌≡◌};
ghost use Rattle.core_machine.specs.table.Operation.{address_of, operation_of};

use crate::step::operation::Operation;
use crate::table::address::Address;

pub(crate) mod operation;
pub(crate) mod touches;

/// One atomic step: one operation on one word of the table.
#[derive(Clone, Copy)]
pub enum Step {
    /// A step by which an object is made.
    Making(MakingStep),
    /// The phase is loaded.
    PollLoad,
    /// A step by which an object is read or written.
    Access(AccessStep),
    /// A step on spines: their words that are granted, their places, and they themselves.
    Spine(SpineStep),
    /// A step by which a seat tells what it has answered.
    Handshake(HandshakeStep),
    /// A step by which the collector copies spines and returns the words of freed ones.
    Copying(CopyingStep),
    /// A step of the collector; a seat too looks at another one's word.
    Turning(TurningStep),
}

/// A step by which an object is made. Bit `j` of `bits` is fragment `j` of the group.
#[derive(Clone, Copy)]
pub enum MakingStep {
    /// Every fragment of the group is taken.
    Claim { group: u16 },
    /// These fragments are taken no longer.
    GiveBack { group: u16, bits: u16 },
    /// An own fragment that isn't born yet gets a word.
    NewbornStore { fragment: u16, part: u8, word: u64 },
    /// These fragments are born: where births are black, marked and scanned too.
    Birth { group: u16, bits: u16, black: bool },
    /// So are these, the last of their object.
    LastBirth { group: u16, bits: u16, black: bool },
}

/// A step by which an object is read or written.
#[derive(Clone, Copy)]
pub enum AccessStep {
    /// The first word of a fragment is loaded: a meta or a link.
    WalkLoad {
        fragment: u16,
    },
    /// An object's name is loaded from its first fragment.
    NameLoad {
        head: u16,
    },
    /// A field is loaded for a get.
    GetLoad {
        fragment: u16,
        part: u8,
    },
    /// A field is loaded for a set.
    OldLoad {
        fragment: u16,
        part: u8,
    },
    /// A fragment is marked.
    Shade {
        fragment: u16,
    },
    /// A field gets another word.
    Swap {
        fragment: u16,
        part: u8,
        word: u64,
    },
    /// A field gets the new word where it has the old one.
    CompareSwap {
        fragment: u16,
        part: u8,
        old: u64,
        new: u64,
    },
}

/// A step on spines. The loads are the collector's too.
#[derive(Clone, Copy)]
pub enum SpineStep {
    /// So many more words are granted, or asked for.
    BudgetAdd {
        words: u16,
    },
    /// So many are granted no longer, or asked for.
    BudgetTakeBack {
        words: u16,
    },
    /// The next free spine words are taken, so many.
    SpotClaim {
        words: u16,
    },
    /// A spine word of an array that isn't born yet names a fragment.
    SpineStore {
        half: u8,
        offset: u32,
        fragment: u16,
    },
    /// The place of an array's spine is loaded from its first fragment.
    AddressLoad {
        sentinel: u16,
    },
    /// A spine word is loaded.
    WordLoad {
        half: u8,
        offset: u32,
    },
}

/// A step by which a seat tells in its own word what it has answered.
#[derive(Clone, Copy)]
pub enum HandshakeStep {
    /// The seat has answered the phase.
    AnswerStore { seat: u8, phase: u64 },
    /// The seat has left.
    LeaveStore { seat: u8 },
}

/// A step by which the collector copies spines into the other half, and returns the words of freed ones.
#[derive(Clone, Copy)]
pub enum CopyingStep {
    /// The next spine's place is the first word of this half.
    FlipStore { half: u8 },
    /// The next free spine words are taken for a copy, so many.
    CopyClaim { words: u16 },
    /// A word of a spine is loaded.
    CopyLoad { half: u8, offset: u32 },
    /// Its copy gets the word.
    CopyStore { half: u8, offset: u32, word: u64 },
    /// The array with this first fragment has its spine where this word tells.
    SwingStore { sentinel: u16, spot: u64 },
    /// So many words are granted no longer.
    BudgetReturn { words: u32 },
}

/// A step of the collector.
#[derive(Clone, Copy)]
pub enum TurningStep {
    /// A seat's word is loaded.
    LookLoad { seat: u8 },
    /// The phase begins.
    AdvanceStore { phase: u64 },
    /// A group's control word is loaded.
    GroupLoad { group: u16 },
    /// A word of a fragment is loaded to see where it leads.
    ScanLoad { fragment: u16, part: u8 },
    /// A fragment to which a scanned one leads is marked.
    MarkShade { fragment: u16 },
    /// A fragment is told to be scanned.
    Blacken { fragment: u16 },
    /// The first word of a dead fragment is loaded.
    MetaLoad { fragment: u16 },
    /// These fragments are taken no longer, nor an object's. Bit `j` of `bits` is fragment `j` of the group.
    Free { group: u16, bits: u16 },
    /// No fragment of the group is marked any longer, nor scanned.
    Clear { group: u16 },
    /// The phase begins with which the cycle before it has ended; so many fragments were taken as its marks were cleared.
    EndAdvance { phase: u64, kept: u64 },
}

impl Step {
    /// The word that the step touches.
    #[inline(always)]
    pub fn address(&self) -> Address
        ensures { result ≡ address_of self.now }
    {
        self.touch().0
    }

    /// What the step does with the word.
    #[inline(always)]
    pub fn operation(&self) -> Operation
        ensures { result ≡ operation_of self.now }
    {
        self.touch().1
    }

    /// The word that the step touches, and what it does with it.
    #[inline(always)]
    pub fn touch(&self) -> (Address, Operation)
        ensures address { result.0 ≡ address_of self.now }
        ensures operation { result.1 ≡ operation_of self.now }
    {
        match *self {
            Step::Making(step) => step.touch(),
            Step::PollLoad => (Address::Phase, Operation::Load),
            Step::Access(step) => step.touch(),
            Step::Spine(step) => step.touch(),
            Step::Handshake(step) => step.touch(),
            Step::Copying(step) => step.touch(),
            Step::Turning(step) => step.touch(),
        }
    }
}
