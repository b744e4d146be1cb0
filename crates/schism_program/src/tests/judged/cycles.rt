//! What a cycle that ends may leave, and who may say that it ended.

pub const CASES: [&str; 68] = [
    // A cycle ends once, under its number; the next one begins after phase 7 was answered.
    "wide; to sweep; last; c ends 0 kept 11; end used 11 => legal 13",
    "wide; to sweep; c ends 0 kept 11; last; end used 11 => not legal at line 14",
    "wide; to sweep; last; c ends 0 kept 11; c ends 0 kept 11; end used 11 => not legal at line 17",
    "wide; to sweep; last; c ends 0 kept 11; c ends 1 kept 11; end used 11 => not legal at line 17",
    "wide; to sweep; last; c ends 0 kept 11; 0 answers 7; c phase 8; end used 11 => legal 15",
    "wide; to sweep; last; c ends 0 kept 11; c phase 8; 0 answers 7; end used 11 => not legal at line 17",
    "wide; to sweep; last; c ends 0 kept 11; 0 answers 7; c phase 7; end used 11 => not legal at line 18",
    // The board's 11 fragments alone are reached at both moments, and nothing else is there: exactly 11 are kept.
    "wide; to sweep; c frees 1; last; c ends 0 kept 11; end used 10 => legal 14",
    "wide; to sweep; last; c frees 1; end used 10 => not legal at line 16",
    // What a seat had left over at its last reply before the cycle may be kept too: 5.
    "wide; 0 takes 5; 0 nil 1 = ok; to sweep; last; c ends 0 kept 16; end used 16 => legal 15",
    "wide; 0 takes 5; 0 nil 1 = ok; to sweep; last; c ends 0 kept 17; end used 16 => not legal at line 18",
    "wide; 0 takes 5; 0 nil 1 = ok; 0 gives back 5; to sweep; last; c ends 0 kept 16; end used 11 => legal 16",
    "wide; 0 takes 5; 0 gives back 5; 0 nil 1 = ok; to sweep; last; c ends 0 kept 16; end used 11 => not legal at line 19",
    "wide; 0 takes 5; 0 gives back 5; 0 nil 1 = ok; to sweep; last; c ends 0 kept 11; end used 11 => legal 16",
    // And what it took since that reply, or the opening where there is none.
    "wide; 0 takes 5; to sweep; last; c ends 0 kept 16; end used 16 => legal 14",
    "wide; 0 takes 5; to sweep; last; c ends 0 kept 17; end used 16 => not legal at line 17",
    "wide; 0 takes 5; 0 gives back 5; to sweep; last; c ends 0 kept 16; end used 11 => legal 15",
    "wide; 0 nil 1 = ok; 0 takes 5; to sweep; last; c ends 0 kept 16; end used 16 => legal 15",
    "wide; to sweep; 0 takes 5; 0 nil 1 = ok; last; c ends 0 kept 16; end used 16 => legal 15",
    "wide; to sweep; 0 takes 5; 0 nil 1 = ok; last; c ends 0 kept 17; end used 16 => not legal at line 18",
    // A record that was dropped before, 12 with the board: it has to be freed, since 11 and the 4 left over are at most 15.
    "wide; 0 takes 5; 0 new 1 2 = 0.0; 0 nil 1 = ok; to sweep; c frees 1; last; c ends 0 kept 15; end used 15 => legal 17",
    "wide; 0 takes 5; 0 new 1 2 = 0.0; 0 nil 1 = ok; to sweep; c frees 1; last; c ends 0 kept 16; end used 15 => not legal at line 20",
    "wide; 0 takes 5; 0 new 1 2 = 0.0; 0 nil 1 = ok; to sweep; c frees 1; last; c ends 0 kept 11; end used 15 => legal 17",
    "wide; 0 takes 5; 0 new 1 2 = 0.0; 0 nil 1 = ok; to sweep; c frees 1; last; c ends 0 kept 10; end used 15 => not legal at line 20",
    "wide; 0 takes 5; 0 new 1 2 = 0.0; 0 nil 1 = ok; to sweep; last; c ends 0 kept 15; end used 16 => not legal at line 19",
    // A record that is held is kept: by a register, by a field of the board, by a cell of an array that is held.
    "wide; 0 takes 5; 0 new 1 2 = 0.0; to sweep; last; c ends 0 kept 12; end used 16 => legal 15",
    "wide; 0 takes 5; 0 new 1 2 = 0.0; to sweep; last; c ends 0 kept 11; end used 16 => not legal at line 18",
    "wide; 0 takes 5; 0 new 1 2 = 0.0; to sweep; last; c ends 0 kept 16; end used 16 => legal 15",
    "wide; 0 takes 5; 0 new 1 2 = 0.0; to sweep; last; c ends 0 kept 17; end used 16 => not legal at line 18",
    "wide; 0 takes 1; 0 new 1 2 = 0.0; 0 set 0 31 1 = was -; 0 nil 1 = ok; to sweep; last; c ends 0 kept 12; end used 12 => legal 17",
    "wide; 0 takes 1; 0 new 1 2 = 0.0; 0 set 0 31 1 = was -; 0 nil 1 = ok; to sweep; last; c ends 0 kept 11; end used 12 => not legal at line 20",
    "wide; 0 takes 3; 0 array 1 4 = 0.0; 0 new 2 1 = 0.1; 0 set 1 3 2 = was -; 0 nil 2 = ok; to sweep; last; c ends 0 kept 14; end used 14 => legal 18",
    "wide; 0 takes 3; 0 array 1 4 = 0.0; 0 new 2 1 = 0.1; 0 set 1 3 2 = was -; 0 nil 2 = ok; to sweep; last; c ends 0 kept 13; end used 14 => not legal at line 21",
    // One that was dropped in phase 5 may be kept, and one that was made there.
    "wide; 0 takes 5; 0 new 1 2 = 0.0; to sweep; 0 nil 1 = ok; last; c ends 0 kept 11; end used 16 => legal 16",
    "wide; 0 takes 5; 0 new 1 2 = 0.0; to sweep; 0 nil 1 = ok; last; c ends 0 kept 10; end used 16 => not legal at line 19",
    "wide; to sweep; 0 takes 1; 0 new 1 2 = 0.0; last; c ends 0 kept 12; end used 12 => legal 15",
    "wide; to sweep; 0 takes 1; 0 new 1 2 = 0.0; last; c ends 0 kept 11; end used 12 => legal 15",
    "wide; to sweep; 0 takes 1; 0 new 1 2 = 0.0; last; c ends 0 kept 13; end used 12 => not legal at line 18",
    // Two records that hold each other and nothing else holds: both have to be freed.
    "wide; 0 takes 2; 0 new 1 2 = 0.0; 0 new 2 2 = 0.1; 0 set 1 0 2 = was -; 0 set 2 0 1 = was -; 0 nil 1 = ok; 0 nil 2 = ok; to sweep; c frees 2; last; c ends 0 kept 11; end used 11 => legal 21",
    "wide; 0 takes 2; 0 new 1 2 = 0.0; 0 new 2 2 = 0.1; 0 set 1 0 2 = was -; 0 set 2 0 1 = was -; 0 nil 1 = ok; 0 nil 2 = ok; to sweep; c frees 1; last; c ends 0 kept 11; end used 12 => not legal at line 24",
    // The one spine word of an array that was dropped before has to be returned; those of arrays that are held or made since stay.
    "wide; 0 takes 2; 0 array 1 4 = 0.0; 0 nil 1 = ok; to sweep; c frees 2; c returns 1; last; c ends 0 kept 11; end used 11 => legal 18",
    "wide; 0 takes 2; 0 array 1 4 = 0.0; 0 nil 1 = ok; to sweep; c frees 2; last; c ends 0 kept 11; end used 11 => not legal at line 20",
    "wide; 0 takes 2; 0 array 1 4 = 0.0; to sweep; last; c ends 0 kept 13; end used 13 => legal 15",
    "wide; 0 takes 2; 0 array 1 4 = 0.0; 0 nil 1 = ok; to sweep; c frees 2; c returns 1; 0 takes 2; 0 array 1 4 = 0.1; last; c ends 0 kept 13; end used 13 => legal 20",
    "wide; 0 takes 2; 0 array 1 4 = 0.0; 0 nil 1 = ok; to sweep; c frees 2; 0 takes 2; 0 array 1 4 = 0.1; last; c ends 0 kept 13; end used 13 => not legal at line 22",
    // A collect shows a cycle that ended before it, and began after its seat's last reply.
    "wide; to sweep; last; c ends 0 kept 11; 0 collect = cycle 0; end used 11 => legal 14",
    "wide; to sweep; last; c ends 0 kept 11; 0 collect = cycle 1; end used 11 => not legal at line 17",
    "wide; to sweep; last; 0 collect = cycle 0; c ends 0 kept 11; end used 11 => not legal at line 16",
    "wide; 0 poll = 0; to sweep; last; c ends 0 kept 11; 0 collect = cycle 0; end used 11 => legal 15",
    "wide; to sweep; last; c ends 0 kept 11; 0 collect = cycle 0; 0 collect = cycle 0; end used 11 => not legal at line 18",
    // The collector's own word for it stands right behind the end.
    "wide; to sweep; last; c ends 0 kept 11; c cycle = cycle 0; 0 collect = cycle 0; end used 11 => legal 15",
    "wide; to sweep; last; c ends 0 kept 11; c cycle = cycle 1; end used 11 => not legal at line 17",
    "wide; to sweep; last; c cycle = cycle 0; c ends 0 kept 11; end used 11 => not legal at line 16",
    "wide; to sweep; last; c ends 0 kept 11; 0 answers 7; c cycle = cycle 0; end used 11 => not legal at line 18",
    "wide; to sweep; last; c ends 0 kept 11; c cycle = cycle 0; c cycle = cycle 0; end used 11 => not legal at line 18",
    // Two seats: 11 of the board, 2 that seat 0 had left over at its reply, 1 that seat 1 took since the opening.
    "ending; c ends 0 kept 14; end used 14 => legal 22",
    "ending; c ends 0 kept 15; end used 14 => not legal at line 25",
    "ending; c ends 0 kept 14; 0 collect = cycle 0; 1 collect = cycle 0; end used 14 => legal 24",
    "ending; 1 nil 1 = ok; c ends 0 kept 14; 0 collect = cycle 0; 1 collect = cycle 0; end used 14 => not legal at line 28",
    // No cycle ends before a seat that is there has answered phase 6, nor in phase 4 or 5.
    "spun; c phase 5; 0 answers 5; c frees 2; c returns 1; c phase 6; 0 answers 6; c ends 0 kept 16; end used 16 => legal 20",
    "spun; c phase 5; 0 answers 5; c frees 2; c returns 1; c ends 0 kept 16; end used 16 => not legal at line 21",
    "spun; c ends 0 kept 16; end used 18 => not legal at line 17",
    // Where every seat has left nothing is reached, and everything has to be freed.
    "gone; c frees 11; c phase 6; c ends 0 kept 0; end used 0 => legal 9",
    "gone; c frees 11; c phase 6; c ends 0 kept 1; end used 0 => not legal at line 12",
    "gone; c frees 10; c phase 6; c ends 0 kept 0; end used 1 => not legal at line 12",
    // What a seat holds back is kept too, and nothing else beside the board.
    "held back; c ends 0 kept 15; space used 15 of 16 spine 0 of 0; end used 15 => legal 18",
    "held back; c ends 0 kept 10; space used 15 of 16 spine 0 of 0; end used 15 => not legal at line 20",
    "held back; c ends 0 kept 16; space used 15 of 16 spine 0 of 0; end used 15 => not legal at line 20",
];
