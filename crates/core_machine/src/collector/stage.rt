use heap_model::Id;
use heap_words::Spot;

/// The scan of a grey fragment: its words are looked at one after another.
#[derive(Clone, Copy)]
pub struct Scan {
    /// The fragment that is scanned.
    pub fragment: u16,
    /// The word whose turn it is; those before it are seen to.
    pub part: u8,
    /// How many steps the scan has made.
    pub steps: u16,
}

/// The scan of an array's first fragment: what its spine's words name is marked, one after another.
#[derive(Clone, Copy)]
pub struct SpineScan {
    /// The fragment, and how many steps the scan has made.
    pub scan: Scan,
    /// Where the spine stands.
    pub spine: Spot,
    /// How many words it has.
    pub words: u16,
    /// The word whose turn it is; those before it are seen to.
    pub index: u16,
}

/// A visit to the marked fragments of a group, one after another.
#[derive(Clone, Copy)]
pub struct Visit {
    /// The group.
    pub group: u16,
    /// Its marked fragments, each by its position.
    pub marked: u16,
    /// The position whose turn it is; the marked ones before it are seen to.
    pub position: u8,
}

/// An array that a visit has found.
#[derive(Clone, Copy)]
pub struct ArrayAt {
    /// The visit, which stands at the array's first fragment.
    pub visit: Visit,
    /// How many words its spine has.
    pub words: u16,
    /// The array.
    pub id: Id,
}

/// The copy of a spine into the other half.
#[derive(Clone, Copy)]
pub struct SpineCopy {
    /// The array whose spine it is.
    pub array: ArrayAt,
    /// Where the spine stands.
    pub from: Spot,
    /// Where the copy stands.
    pub to: Spot,
    /// The word whose turn it is; those before it are copied.
    pub index: u16,
}

/// Where the collector stands while it copies spines.
#[derive(Clone, Copy)]
pub enum Copying {
    /// A group's control word is loaded for what is marked in it.
    Visiting { group: u16 },
    /// The first word of a marked fragment is loaded.
    Inspecting(Visit),
    /// The name of an array is loaded, whose spine has so many words.
    Naming { visit: Visit, words: u16 },
    /// The place of its spine is loaded.
    Locating(ArrayAt),
    /// The next free spine words are taken for a copy of its spine, which stands there.
    Claiming { array: ArrayAt, from: Spot },
    /// A word of the spine is loaded.
    Loading(SpineCopy),
    /// The copy gets that word.
    Storing { copy: SpineCopy, word: u64 },
    /// The copy is whole: it becomes the array's spine.
    Swinging(SpineCopy),
}

/// Where the collector stands in a phase.
#[derive(Clone, Copy)]
pub enum Stage {
    /// It looks whether a seat has answered.
    Looking,
    /// A group's control word is loaded, in a pass that has found a grey fragment so far or hasn't.
    Passing {
        group: u16,
        found: bool,
    },
    /// A word of a grey fragment is loaded.
    Scanning(Scan),
    /// The fragment to which that word led is marked; the word `next` comes after it.
    Shading {
        scan: Scan,
        target: u16,
        next: u8,
    },
    /// The place of an array's spine is loaded, which has so many words.
    Addressing {
        scan: Scan,
        words: u16,
    },
    /// A spine word is loaded.
    Indexing(SpineScan),
    /// The fragment that it names is marked.
    Spreading {
        scan: SpineScan,
        target: u16,
    },
    /// All words of the fragment are seen to: it is told to be scanned.
    Blackening(Scan),
    /// Marking has ended: the next spine gets its place in the other half.
    Flipping,
    /// Spines are copied into the other half.
    Copying(Copying),
    /// A group's control word is loaded for what is dead in it.
    Sweeping {
        group: u16,
    },
    /// The first word of a dead fragment of the group is loaded; arrays that begin before it had so many spine words.
    Examining {
        group: u16,
        dead: u16,
        position: u8,
        words: u32,
    },
    /// The group's dead fragments are freed, among them arrays with so many spine words.
    Freeing {
        group: u16,
        dead: u16,
        words: u32,
    },
    /// The spine words of the group's dead arrays are granted no longer.
    Returning {
        group: u16,
        words: u32,
    },
    /// A group's marks are cleared; so many fragments were taken in the groups before it.
    Clearing {
        group: u16,
        kept: u64,
    },
    /// All groups are cleared, and so many fragments were taken in them: the cycle ends.
    Ending {
        kept: u64,
    },
    /// Every seat has answered, and the phase's work is done: the next phase begins.
    Advancing,
}
