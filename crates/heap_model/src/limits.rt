/// The fragments of a group.
pub const GROUP_FRAGMENTS: u16 = 16;

/// The most groups that a heap has.
pub const MOST_GROUPS: u16 = 4096;

/// The most spine words that a heap grants.
pub const MOST_SPINE: u16 = 16384;

/// The most seats of a heap.
pub const MOST_SEATS: u8 = 16;

/// The most fields of the board, those of a record.
pub const MOST_BOARD: u8 = 47;

/// The last seat that a heap may have.
pub const LAST_SEAT: u8 = 15;

/// The registers of a seat.
pub const REGISTER_COUNT: usize = 16;

/// The last register.
pub const LAST_REGISTER: u8 = 15;

/// The most fields of a record.
pub const MOST_FIELDS: u16 = 47;

/// The most cells of an array.
pub const MOST_CELLS: u16 = 4096;

/// The last index that a command may name.
pub const LAST_INDEX: u32 = 4096;

/// The most turns that one command asks for.
pub const MOST_TURNS: u32 = 1_000_000;

/// The numbers in cells are below this.
pub const NUMBER_LIMIT: u32 = 1 << 30;

/// The most fragments that a seat keeps after a reply.
pub const MOST_RESERVE: u16 = 15;

/// As many stamps as a seat has. A stamp tells whose set it is, and which but for a multiple of this.
pub const STAMP_LIMIT: u32 = 1 << 26;

/// A seat does fewer sets than this, its compare and swaps that swapped among them.
pub const SET_LIMIT: u64 = 1 << 63;
