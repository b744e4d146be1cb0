use heap_model::CollectReply;

/// Where a seat stands in its call: which step is due.
#[derive(Clone, Copy)]
pub enum Point {
    /// No call is in flight.
    Idle,
    /// An object is made.
    Making(Making),
    /// The call has no word to look at: its reply is told.
    Local,
    /// An object is read or written.
    Access(Access),
    /// The phase is answered.
    Polling(Polling),
    /// A seat looks at what its collect is to tell, or tells it.
    Collecting(Collecting),
    /// The seat leaves.
    Leaving(Leaving),
}

/// Where a seat stands while it makes an object.
#[derive(Clone, Copy)]
pub enum Making {
    /// The spine words of the array are added to those that are granted.
    Granting,
    /// They were too many: they are taken back, and the refusal is told.
    Withdrawing,
    /// The next group is claimed.
    Gathering,
    /// Too little was found: what was claimed is given back.
    GivingBack,
    /// All was given back: the refusal is told, and an array's spine words are taken back.
    Refusing,
    /// The array's spine gets its place.
    Placing,
    /// The spine gets its words.
    Listing,
    /// The fragments get the words of the new object.
    Storing,
    /// The fragments are born.
    Bearing,
}

/// Where a seat stands while it reads or writes an object.
#[derive(Clone, Copy)]
pub enum Access {
    /// The object's meta is loaded.
    LoadingMeta,
    /// The link to the next fragment is loaded.
    Walking,
    /// The place of the array's spine is loaded.
    LoadingSpot,
    /// The spine word is loaded that names the cell's fragment.
    Indexing,
    /// The field is loaded, for a get.
    Getting,
    /// It was a reference: the object's name is loaded.
    Naming,
    /// The field is loaded, for a set with the barrier on.
    LoadingOld,
    /// It was a reference: the object is shaded.
    ShadingOld,
    /// The object that the set puts into the field is shaded.
    ShadingNew,
    /// The field gets its new word.
    Swapping,
    /// With the barrier on, the object is shaded that a compare and swap expects in the field, or puts there.
    ShadingSide(Side),
    /// The field gets its new word where it has the one that is expected.
    Replacing,
}

/// One of the two values of a compare and swap.
#[derive(Clone, Copy)]
pub enum Side {
    /// The value that is expected in the field.
    Expected,
    /// The value that it gets.
    New,
}

/// Where a seat stands while it answers the phase.
#[derive(Clone, Copy)]
pub enum Polling {
    /// The phase is loaded.
    Asking,
    /// The objects in the registers are shaded.
    Shading,
    /// The answer is stored.
    Answering,
}

/// Where a seat stands in an inner call of a collect.
#[derive(Clone, Copy)]
pub enum Collecting {
    /// The phase is loaded to look at it.
    Looking,
    /// The phase is loaded, with which the answer of another seat is to be compared.
    Asking { other: u8 },
    /// The other seat's word is loaded and compared with the phase.
    Comparing { other: u8, phase: u64 },
    /// The reply is told.
    Noting(CollectReply),
}

/// Where a seat stands while it leaves.
#[derive(Clone, Copy)]
pub enum Leaving {
    /// The reserve is given back.
    Emptying,
    /// The seat's word tells that it has left.
    Parting,
}
