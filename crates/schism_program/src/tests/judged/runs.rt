//! A run is judged for its objects and its end line: what is wrong in a play for its space or its phases alone is legal in a run.

pub const CASES: [&str; 27] = [
    // More than there are, none, and more than its own.
    "pair; 0 takes 99; 1 takes 0; 1 gives back 1; end used 109 => not legal at line 4",
    "run; 0 takes 99; 1 takes 0; 1 gives back 1; end used 109 => legal 3",
    // An object for which nothing was taken; and refusals that show anything.
    "pair; 0 new 1 47 = 0.0; end used 11 => not legal at line 4",
    "run; 0 new 1 47 = 0.0; end used 11 => legal 1",
    "pair; 0 array 1 4 = spine need 7 used 0; 0 new 1 1 = full need 9 found 77; end used 11 => not legal at line 4",
    "run; 0 array 1 4 = spine need 7 used 0; 0 new 1 1 = full need 9 found 77; end used 11 => legal 2",
    // Phases and cycles in no order.
    "pair; c phase 9; 1 answers 4; c returns 3; c ends 5 kept 77; end used 11 => not legal at line 4",
    "run; c phase 9; 1 answers 4; c returns 3; c ends 5 kept 77; end used 11 => legal 4",
    "pair; 0 poll = 3; 0 collect = cycle 8; 1 collect = waits 1 answered 5 phase 2; end used 11 => not legal at line 4",
    "run; 0 poll = 3; 0 collect = cycle 8; 1 collect = waits 1 answered 5 phase 2; end used 11 => legal 3",
    // A leave with fragments left over.
    "pair; 0 takes 3; 0 leave = ok; end used 14 => not legal at line 5",
    "run; 0 takes 3; 0 leave = ok; end used 14 => legal 2",
    // What is in use at the end: 11, and what was taken, less what was given back or freed, but never less than nothing.
    "run; end used 11 => legal 0",
    "run; end used 10 => not legal at line 3",
    "run; 0 takes 5; 1 takes 2; 0 gives back 3; end used 15 => legal 3",
    "run; 0 takes 5; 1 takes 2; 0 gives back 3; end used 18 => not legal at line 6",
    "run; c frees 11; end used 0 => legal 1",
    "run; c frees 12; 0 takes 2; end used 1 => legal 2",
    // Two seats set one field: the second shows the stamp of the first.
    "run; 0 num 1 5 = ok; 1 set 0 3 1 = was -; 0 set 0 3 1 = was 1:1; 1 get 2 0 3 = number 5 at 0:1; end used 11 => legal 4",
    "run; 0 num 1 5 = ok; 1 set 0 3 1 = was -; 0 set 0 3 1 = was -; 1 get 2 0 3 = number 5 at 0:1; end used 11 => not legal at line 5",
    "run; 0 num 1 5 = ok; 1 set 0 3 1 = was -; 0 set 0 3 1 = was 1:1; 1 get 2 0 3 = nil at 1:1; end used 11 => not legal at line 6",
    // Ids, fields, and what a seat that left says.
    "run; 0 new 1 2 = 0.0; 1 new 1 2 = 1.0; 0 new 1 2 = 0.1; end used 11 => legal 3",
    "run; 0 new 1 2 = 0.0; 1 new 1 2 = 1.0; 0 new 1 2 = 0.2; end used 11 => not legal at line 5",
    "run; 0 new 1 2 = 0.0; 0 get 2 1 1 = nil at -; end used 11 => legal 2",
    "run; 0 new 1 2 = 0.0; 0 get 2 1 2 = nil at -; end used 11 => not legal at line 4",
    "run; 1 leave = ok; 0 takes 1; 0 len 0 = 32; end used 12 => legal 3",
    "run; 0 leave = ok; 0 takes 1; end used 12 => not legal at line 4",
];
