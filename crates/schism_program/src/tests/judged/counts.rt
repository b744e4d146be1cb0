//! What is taken and given back, phases and their answers, and what the collector swings, frees and returns.

pub const CASES: [&str; 50] = [
    // A seat takes at least one fragment and at most what is free, here 5 of 16.
    "lone; 0 takes 5; end used 16 => legal 1",
    "lone; 0 takes 4294967295; end used 4294967306 => not legal at line 4",
    "lone; 0 takes 1; end used 12 => legal 1",
    "pair; 0 takes 3; 1 takes 2; end used 16 => legal 2",
    "pair; 0 takes 3; 1 takes 3; end used 17 => not legal at line 5",
    // It gives back at least one and at most its own, which objects are no more.
    "lone; 0 takes 5; 0 gives back 5; end used 11 => legal 2",
    "lone; 0 takes 5; 0 gives back 0; end used 16 => not legal at line 5",
    "lone; 0 takes 5; 0 new 1 3 = 0.0; 0 gives back 3; end used 13 => legal 3",
    "lone; 0 takes 5; 0 new 1 3 = 0.0; 0 gives back 4; end used 12 => not legal at line 6",
    "pair; 0 takes 3; 1 takes 2; 1 gives back 2; end used 14 => legal 3",
    "pair; 0 takes 3; 1 takes 2; 1 gives back 3; end used 13 => not legal at line 6",
    // It answers the phase now, which is one more than what it answered last.
    "lone; c phase 1; 0 answers 1; end used 11 => legal 2",
    "lone; c phase 1; 0 answers 0; end used 11 => not legal at line 5",
    "lone; 0 answers 0; c phase 1; end used 11 => not legal at line 4",
    "lone; 0 answers 1; c phase 1; end used 11 => not legal at line 4",
    "lone; c phase 1; 0 answers 1; 0 answers 2; c phase 2; end used 11 => not legal at line 6",
    "lone; c phase 1; 0 answers 1; c phase 2; 0 answers 2; end used 11 => legal 4",
    "lone; c phase 1; 0 answers 1; c phase 2; 0 answers 1; end used 11 => not legal at line 7",
    // A phase is one more than the one before, once every seat that is there has answered that one. Phase 0 is answered at the opening.
    "lone; c phase 1; end used 11 => legal 1",
    "lone; c phase 0; end used 11 => not legal at line 4",
    "lone; c phase 8; end used 11 => not legal at line 4",
    "lone; c phase 1; c phase 1; end used 11 => not legal at line 5",
    "lone; c phase 1; c phase 2; 0 answers 1; end used 11 => not legal at line 5",
    "lone; c phase 1; 0 answers 1; c phase 3; end used 11 => not legal at line 6",
    "pair; c phase 1; 0 answers 1; 1 answers 1; c phase 2; end used 11 => legal 4",
    "pair; c phase 1; 1 answers 1; c phase 2; 0 answers 1; end used 11 => not legal at line 6",
    "pair; c phase 1; 0 answers 1; 1 leave = ok; c phase 2; end used 11 => legal 4",
    "pair; c phase 1; 0 answers 1; c phase 2; 1 leave = ok; end used 11 => not legal at line 6",
    // An array swings once in phase 4, and in no other; 0.2 is a record, 0.3 was never made.
    "spun; c swings 0.0; c swings 0.1; end used 18 => legal 15",
    "spun; c swings 0.2; end used 18 => not legal at line 17",
    "spun; c swings 0.3; end used 18 => not legal at line 17",
    "spun; c swings 1.0; end used 18 => not legal at line 17",
    "spun; c swings 0.1; c phase 5; end used 18 => legal 15",
    "spun; c phase 5; c swings 0.1; end used 18 => not legal at line 18",
    // In phase 4 of the next cycle it swings again, and once.
    "again; c phase 11; c swings 0.1; end used 16 => legal 30",
    "again; c swings 0.1; c phase 11; end used 16 => not legal at line 32",
    "again; c phase 11; c swings 0.1; c swings 0.1; end used 16 => not legal at line 34",
    // Fragments are freed in phase 5, at least one and at most the 18 in use.
    "spun; c phase 5; c frees 18; end used 0 => legal 15",
    "spun; c phase 5; c frees 10; c frees 8; end used 0 => legal 16",
    "spun; c phase 5; c frees 10; c frees 9; end used 0 => not legal at line 19",
    "spun; c phase 5; c frees 2; 0 answers 5; c phase 6; end used 16 => legal 17",
    "spun; c phase 5; 0 answers 5; c phase 6; c frees 2; end used 16 => not legal at line 20",
    "spun; c phase 5; c frees 2; 0 takes 16; end used 32 => legal 16",
    "spun; c phase 5; 0 takes 16; c frees 2; end used 32 => not legal at line 18",
    // So are spine words returned, at most the 3 in use.
    "spun; c phase 5; c returns 3; end used 18 => legal 15",
    "spun; c phase 5; c returns 0; end used 18 => not legal at line 18",
    "spun; c phase 5; c returns 1; c returns 2; end used 18 => legal 16",
    "spun; c phase 5; c returns 1; c returns 3; end used 18 => not legal at line 19",
    "spun; c returns 1; c phase 5; end used 18 => not legal at line 17",
    "spun; c phase 5; 0 answers 5; c phase 6; c returns 1; end used 18 => not legal at line 20",
];
