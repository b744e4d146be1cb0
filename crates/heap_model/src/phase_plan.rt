/// How many phases a cycle has.
pub const CYCLE_PHASES: u64 = 7;

/// The phases of a cycle by their positions in it: no cycle is under way.
pub const REST: u64 = 0;

/// Every barrier is on once all seats have answered.
pub const BARRIERS: u64 = 1;

/// Every birth is black once all seats have answered.
pub const BLACK_BIRTHS: u64 = 2;

/// Every seat's roots are shaded once all seats have answered, and marking begins.
pub const MARKING: u64 = 3;

/// Spines are copied, and arrays swing to the copies.
pub const COPYING: u64 = 4;

/// What is dead is freed, and its spine words are returned.
pub const SWEEP: u64 = 5;

/// Every barrier is off once all seats have answered, and the marks are cleared.
pub const CLEARING: u64 = 6;
