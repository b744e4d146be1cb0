//! Runs of scripts of version 2.

use super::gates::TwoAtOnce;
use super::{RUNS, tells_a_row};
use crate::tests::comparing::holds;
use heap_model::OpenGate;
use std::test::Fail;

/// What is told of two seats that swap a field of the board: one writes it, and the other one finds what that has written.
const SWAPPED: [&[&str]; 2] = [
    &[
        "\nheap 1 0 2 1\n",
        "\n0 cas 0 0 9 1 = was -\n",
        "\n1 cas 0 0 9 1 = now 0:1\n",
        "\n1 get 2 0 0 = number 5 at 0:1\n",
    ],
    &[
        "\nheap 1 0 2 1\n",
        "\n1 cas 0 0 9 1 = was -\n",
        "\n0 cas 0 0 9 1 = now 1:1\n",
        "\n0 get 2 0 0 = number 6 at 1:1\n",
    ],
];

// Each seat comes to its cas only once the other one has come there too.
#[test]
fn swaps_a_field(rt: HostRuntime) -> Result<(), Fail> {
    let script =
        "schism 2; heap 1 0 2 1; 0 num 1 5; 0 cas 0 0 9 1; 0 get 2 0 0; 1 num 1 6; 1 cas 0 0 9 1; 1 get 2 0 0";
    for line in RUNS {
        let gate = TwoAtOnce::new();
        tells_a_row(&rt, rt.alloc(), line, script, &gate, &SWAPPED)?;
    }
    Ok(())
}

/// A script, and what is told in its run. A board of so many fields leaves as many fragments as the record takes that is made first, which is none for the largest.
const ON_BOARDS: [(&str, &[&[&str]]); 3] = [
    (
        "schism 2; heap 1 0 1 1; 0 len 0; 0 new 1 44; 0 new 2 1",
        &[&[
            "\n0 len 0 = 1\n",
            "\n0 new 1 44 = 0.0\n",
            "\n0 new 2 1 = full need 1 found 0\n",
        ]],
    ),
    (
        "schism 2; heap 1 0 1 32; 0 len 0; 0 new 1 14; 0 new 2 1",
        &[&[
            "\n0 len 0 = 32\n",
            "\n0 new 1 14 = 0.0\n",
            "\n0 new 2 1 = full need 1 found 0\n",
        ]],
    ),
    (
        "schism 2; heap 1 0 1 47; 0 len 0; 0 new 1 1; 0 new 2 1",
        &[&[
            "\n0 len 0 = 47\n",
            "\n0 new 1 1 = full need 1 found 0\n",
            "\n0 new 2 1 = full need 1 found 0\n",
        ]],
    ),
];

#[test]
fn runs_on_boards(rt: HostRuntime) -> Result<(), Fail> {
    for &(script, rows) in &ON_BOARDS {
        tells_a_row(&rt, rt.alloc(), "run", script, &OpenGate, rows)?;
        tells_a_row(&rt, rt.alloc(), "run --locked", script, &OpenGate, rows)?;
    }
    Ok(())
}
