//! The space line and the end line.

pub const CASES: [&str; 29] = [
    // The space line shows four counts as they are at its position.
    "bare; space used 11 of 16 spine 0 of 0; end used 11 => legal 0",
    "bare; space used 10 of 16 spine 0 of 0; end used 11 => not legal at line 3",
    "bare; space used 12 of 16 spine 0 of 0; end used 11 => not legal at line 3",
    "bare; space used 11 of 15 spine 0 of 0; end used 11 => not legal at line 3",
    "bare; space used 11 of 32 spine 0 of 0; end used 11 => not legal at line 3",
    "bare; space used 11 of 16 spine 1 of 0; end used 11 => not legal at line 3",
    "bare; space used 11 of 16 spine 0 of 1; end used 11 => not legal at line 3",
    "filled; space used 16 of 32 spine 4 of 4; end used 16 => legal 2",
    "filled; space used 15 of 32 spine 4 of 4; end used 16 => not legal at line 5",
    "filled; space used 16 of 16 spine 4 of 4; end used 16 => not legal at line 5",
    "filled; space used 16 of 32 spine 3 of 4; end used 16 => not legal at line 5",
    "filled; space used 16 of 32 spine 4 of 0; end used 16 => not legal at line 5",
    "bare; 0 takes 5; space used 16 of 16 spine 0 of 0; end used 16 => legal 1",
    "bare; space used 16 of 16 spine 0 of 0; 0 takes 5; end used 16 => not legal at line 3",
    // It is no entry, but a line: what is wrong behind it stands one line further down.
    "bare; 0 takes 5; space used 16 of 16 spine 0 of 0; 0 gives back 5; end used 11 => legal 2",
    "bare; 0 takes 5; space used 16 of 16 spine 0 of 0; 0 gives back 6; end used 10 => not legal at line 5",
    "bare; 0 takes 5; 0 gives back 6; space used 10 of 16 spine 0 of 0; end used 10 => not legal at line 4",
    // The end line shows what is in use.
    "lone; end used 11 => legal 0",
    "lone; end used 10 => not legal at line 4",
    "lone; 0 takes 5; 0 new 1 2 = 0.0; end used 16 => legal 2",
    "lone; 0 takes 5; 0 new 1 2 = 0.0; end used 12 => not legal at line 6",
    "spun; c phase 5; c frees 2; end used 16 => legal 15",
    "spun; c phase 5; c frees 2; end used 18 => not legal at line 19",
    // Freed and given back can be more than was there and taken: then no count of what is in use is right, up to the next take.
    "late; c frees 11; 0 gives back 5; space used 0 of 16 spine 0 of 0; end used 0 => legal 12",
    "late; c frees 12; 0 gives back 5; space used 0 of 16 spine 0 of 0; end used 0 => not legal at line 15",
    "late; space used 16 of 16 spine 0 of 0; c frees 12; 0 gives back 5; end used 0 => not legal at line 16",
    "late; space used 16 of 16 spine 0 of 0; c frees 12; 0 gives back 5; end used 18446744073709551615 => not legal at line 16",
    "late; space used 16 of 16 spine 0 of 0; c frees 12; 0 gives back 5; 0 takes 3; end used 2 => legal 13",
    "late; space used 16 of 16 spine 0 of 0; c frees 12; 0 gives back 5; 0 takes 3; end used 3 => not legal at line 17",
];
