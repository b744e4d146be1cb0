/// Why a call came to nothing. C has it as its code.
#[derive(Clone, Copy, Debug, PartialEq, Eq)]
pub enum Refusal {
    NoMemory = 1,
    /// There is no party of this kind behind the handle.
    NoParty = 2,
    /// There is a party behind a handle that is to get one.
    IsHeld = 3,
    OutOfRange = 4,
    HasLeft = 5,
    NamesSpent = 6,
    SetsSpent = 7,
    /// No more entries can be counted.
    EntriesSpent = 8,
    /// A collect tells only what was found.
    NotFound = 9,
    HasNotLeft = 10,
    NotFolded = 11,
}
