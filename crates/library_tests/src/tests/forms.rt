//! The words after the program's name, and the work that they ask for.

use super::comparing::same;
use form_words::{PaceName, TextKind, Work};
use heap_model::Memory;
use std::alloc::Global;
use std::test::Fail;

/// Words that are no form, each with one space between two.
const NO_FORMS: [&str; 68] = [
    "plays",
    "Check",
    "play extra",
    "play check",
    "check play",
    "check --brief",
    "check --pace steady",
    "--brief play",
    "play --brief --brief",
    "play --press --press",
    "run --press",
    "play --pace steady --pace steady",
    "play --pace steady --brief --pace steady",
    "play --pace",
    "play --pace --brief steady",
    "play --pace=steady",
    "play --pace debts",
    "play --pace steady --pace debt",
    "play --brief=",
    "play -- --brief",
    "play --brief --",
    "play --locked",
    "play --patience 5",
    "run extra",
    "--locked run",
    "run --brief",
    "run --locked --locked",
    "run --locked --patience",
    "run --patience 0",
    "run --patience 01",
    "run --patience 1000001",
    "run --patience -1",
    "run --patience=5",
    "run --patience 5 --patience 5",
    "run --pace steady --pace steady",
    "run --pace --locked steady",
    "run -- --locked",
    "play -h",
    "play --help",
    "run --pace=steady",
    "make -- 1 1 1",
    "check --",
    "plan --",
    "plan --brief",
    "plan extra",
    "make",
    "make 7 4",
    "make 7 4 2000 1",
    "make 2147483648 1 1",
    "make 1 0 1",
    "make 1 17 1",
    "make 1 1 32769",
    "make 01 1 1",
    "make 1 1 +1",
    "migrate",
    "migrate scripts",
    "migrate Script",
    "migrate script history",
    "migrate script --brief",
    "migrate -- script",
    "script migrate",
    "crews",
    "queues",
    "queue 1",
    "queue --history",
    "crew history",
    "crew --history --history",
    "crew --history 0",
];

/// Words with a space in one of them, which are no form either.
const SPACED: [&[&str]; 5] = [
    &[" play"],
    &["play "],
    &["check\n"],
    &["play", " --brief"],
    &["make", "1 ", "1", "1"],
];

const STEADY: Option<PaceName> = Some(PaceName::Steady);

const DEBT: Option<PaceName> = Some(PaceName::Debt);

/// Words of plays, each with the pace, whether the brief alone is told, and whether seats are pressed.
const PLAYS: [(&str, Option<PaceName>, bool, bool); 9] = [
    ("play", None, false, false),
    ("play --brief", None, true, false),
    ("play --press", None, false, true),
    ("play --pace steady", STEADY, false, false),
    ("play --brief --pace steady", STEADY, true, false),
    ("play --pace steady --brief", STEADY, true, false),
    ("play --pace debt", DEBT, false, false),
    ("play --brief --pace debt", DEBT, true, false),
    ("play --press --pace debt --brief", DEBT, true, true),
];

/// Words of runs, each with the pace, whether it is locked, and its patience.
const RUNS: [(&str, PaceName, bool, u32); 7] = [
    ("run", PaceName::Steady, false, 1_000),
    ("run --locked", PaceName::Steady, true, 1_000),
    ("run --pace steady", PaceName::Steady, false, 1_000),
    ("run --patience 1", PaceName::Steady, false, 1),
    (
        "run --patience 1000000 --pace steady --locked",
        PaceName::Steady,
        true,
        1_000_000,
    ),
    (
        "run --locked --patience 1000 --pace debt",
        PaceName::Debt,
        true,
        1_000,
    ),
    ("run --pace debt", PaceName::Debt, false, 1_000),
];

/// Words by which a script is made, each with the three numbers.
const MAKINGS: [(&str, u32, u8, u32); 2] = [
    ("make 2147483647 16 32768", 2_147_483_647, 16, 32_768),
    ("make 0 1 0", 0, 1, 0),
];

/// Words by which a text is migrated, each with its kind and the most bytes of one.
const MIGRATIONS: [(&str, TextKind, usize); 2] = [
    ("migrate script", TextKind::Script, 1_048_572),
    ("migrate history", TextKind::History, 16_777_212),
];

/// The work that the words in the line ask for.
fn asked(alloc: Global, line: &str) -> Result<Option<Work>, Memory> {
    let words: Vec<&str> = line.split(' ').collect(alloc)?;
    Work::of(alloc, &words)
}

#[test]
fn asks_for_nothing_by_other_words(rt: HostRuntime) -> Result<(), Fail> {
    let alloc = rt.alloc();
    same(&rt, &Work::of(alloc, &[]), &Ok(None), &"no words");
    for words in SPACED {
        same(&rt, &Work::of(alloc, words), &Ok(None), &words[0]);
    }
    for line in NO_FORMS {
        same(&rt, &asked(alloc, line), &Ok(None), &line);
    }
    Ok(())
}

#[test]
fn asks_for_the_work_of_a_form(rt: HostRuntime) -> Result<(), Fail> {
    let alloc = rt.alloc();
    for (line, pace, brief, press) in PLAYS {
        let work = Work::Play { pace, brief, press };
        same(&rt, &asked(alloc, line), &Ok(Some(work)), &line);
        same(&rt, &work.most_bytes(), &Some(1_048_576), &line);
    }
    for (line, pace, locked, patience) in RUNS {
        let work = Work::Run {
            pace,
            locked,
            patience,
        };
        same(&rt, &asked(alloc, line), &Ok(Some(work)), &line);
        same(&rt, &work.most_bytes(), &Some(1_048_576), &line);
    }
    for (line, start, seats, lines) in MAKINGS {
        let work = Work::Make {
            start,
            seats,
            lines,
        };
        same(&rt, &asked(alloc, line), &Ok(Some(work)), &line);
        same(&rt, &work.most_bytes(), &None, &line);
    }
    for (line, work) in [("check", Work::Check), ("plan", Work::Plan)] {
        same(&rt, &asked(alloc, line), &Ok(Some(work)), &line);
        same(&rt, &work.most_bytes(), &Some(16_777_216), &line);
    }
    for (line, history) in [("crew", false), ("crew --history", true)] {
        let work = Work::Crew { history };
        same(&rt, &asked(alloc, line), &Ok(Some(work)), &line);
        same(&rt, &work.most_bytes(), &Some(1_048_576), &line);
    }
    same(
        &rt,
        &asked(alloc, "queue"),
        &Ok(Some(Work::Queue)),
        &"queue",
    );
    same(&rt, &Work::Queue.most_bytes(), &Some(1_048_576), &"queue");
    for (line, kind, most) in MIGRATIONS {
        let work = Work::Migrate(kind);
        same(&rt, &asked(alloc, line), &Ok(Some(work)), &line);
        same(&rt, &work.most_bytes(), &Some(most), &line);
    }
    Ok(())
}
