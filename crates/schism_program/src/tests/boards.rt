//! Plays on boards of several sizes.

use super::several_seats::plays;
use std::test::Fail;

/// A play on a board of so many fields, the last of which has this number: what it tells from its `new` up to its space line, what seat 0 tells then, what is freed at the end,
/// and how many entries there are. The script goes to the end of the board.
macro_rules! play_on {
    ($fields:literal, $last:literal, $made:literal, $gives:literal, $freed:literal, $verdict:literal) => {
        (
            concat!(
                "schism 2; heap 1 0 1 ",
                $fields,
                "; 0 len 0; 0 num 1 9; 0 set 0 ",
                $last,
                " 1; 0 get 2 0 ",
                $last,
                "; 0 get 3 0 ",
                $fields,
                "; 0 new 4 1"
            ),
            concat!(
                "history 2 play; heap 1 0 1 ",
                $fields,
                "; 0 len 0 = ",
                $fields,
                "; 0 num 1 9 = ok; 0 set 0 ",
                $last,
                " 1 = was -; 0 get 2 0 ",
                $last,
                " = number 9 at 0:1; 0 get 3 0 ",
                $fields,
                " = no field; ",
                $made,
                "; space used 16 of 16 spine 0 of 0; ",
                $gives,
                "0 leave = ok; c phase 1; c phase 2; c phase 3; c phase 4; c phase 5; c frees ",
                $freed,
                "; c phase 6; c ends 0 kept 0; end used 0"
            ),
            $verdict,
        )
    };
}

/// A script, the history of its play, and how many entries that has. The board's first fragment has two fields, and each further one three. A record of one fragment is made of
/// what the board leaves, which the seat takes whole; of that it gives back all but one at the end.
const BOARDS: [(&str, &str, &str); 8] = [
    play_on!(
        1,
        0,
        "0 takes 15; 0 new 4 1 = 0.0",
        "0 gives back 14; ",
        2,
        "legal 17"
    ),
    play_on!(
        2,
        1,
        "0 takes 15; 0 new 4 1 = 0.0",
        "0 gives back 14; ",
        2,
        "legal 17"
    ),
    play_on!(
        3,
        2,
        "0 takes 14; 0 new 4 1 = 0.0",
        "0 gives back 13; ",
        3,
        "legal 17"
    ),
    play_on!(
        5,
        4,
        "0 takes 14; 0 new 4 1 = 0.0",
        "0 gives back 13; ",
        3,
        "legal 17"
    ),
    play_on!(
        8,
        7,
        "0 takes 13; 0 new 4 1 = 0.0",
        "0 gives back 12; ",
        4,
        "legal 17"
    ),
    play_on!(
        32,
        31,
        "0 takes 5; 0 new 4 1 = 0.0",
        "0 gives back 4; ",
        12,
        "legal 17"
    ),
    play_on!(
        46,
        45,
        "0 new 4 1 = full need 1 found 0",
        "",
        16,
        "legal 15"
    ),
    play_on!(
        47,
        46,
        "0 new 4 1 = full need 1 found 0",
        "",
        16,
        "legal 15"
    ),
];

#[test]
fn plays_on_boards_of_several_sizes(rt: HostRuntime) -> Result<(), Fail> {
    plays(&rt, rt.alloc(), &BOARDS)
}
