ghost use Rattle.heap_model.specs.calls.SeatLaws.{EachCallIsShort, EachCallLeavesRoom, BoardStays, EachCallGrows, EachCallCounts, EachCallSparesOthers};

/// The laws of a seat's calls: how many entries one adds at most, so how much room is left after it; that no command
/// of a seat which hasn't left replaces its register 0; that what a seat holds changes by the reply alone; that no call
/// but a leave leaves, none but new and array makes an object, and one at most, none but a set or a cas uses up one of its sets, and one at most; and that none does so for another seat.
pub fn seat_laws()
    ensures short { EachCallIsShort }
    ensures room { EachCallLeavesRoom }
    ensures board { BoardStays }
    ensures grows { EachCallGrows }
    ensures counts { EachCallCounts }
    ensures others { EachCallSparesOthers }
{}
