//! Histories that a check judges, and the graph, the account and the traits of calls by which it judges.

mod account;
mod collector_calls;
mod graph;
mod seat_calls;

use super::comparing::same;
use heap_model::Entry;
use log_merge::{CheckFault, check};
use reply_text::read_history;
use script_text::ScriptFault;
use std::alloc::Global;
use std::process::Abort;
use std::test::Fail;

// What a check of the history that the text is answers.
fn checked(alloc: Global, text: &str) -> Result<Result<u64, CheckFault>, ScriptFault> {
    let history = read_history(alloc, text.as_bytes())?;
    Ok(check(alloc, &history))
}

/// The one entry that the line is in a play.
pub(super) fn entry_of(alloc: Global, line: &str) -> Result<Entry, Fail> {
    let text = format!(in alloc;
        "history 2 play\nheap 1 0 16 32\n{line}\nspace used 0 of 0 spine 0 of 0\nend used 0\n"
    )?;
    let history = read_history(alloc, text.as_bytes())?;
    let entry = history.entries.as_slice().first().copied();
    Ok(entry.ok_or("no entry")?)
}

/// A history, and how many entries it has, or the line that isn't legal.
type Judged = (&'static str, Result<u64, u32>);

const PLAYS: &[Judged] = &[
    (
        "history 1 play\nheap 1 0 1\n0 takes 5\n0 new 1 2 = 0.0\n0 num 2 9 = ok\n0 set 1 0 2 = was -\n0 get 3 1 0 = number 9 at 0:1\nspace used 16 of 16 spine 0 of 0\n0 gives back 4\n0 leave = ok\nend used 12\n",
        Ok(7),
    ),
    (
        "history 1 play\nheap 1 0 1\n0 leave = ok\nspace used 11 of 16 spine 0 of 0\nend used 11\n",
        Ok(1),
    ),
    (
        "history 1 play\nheap 1 0 1\n0 takes 6\nspace used 17 of 16 spine 0 of 0\nend used 17\n",
        Err(3),
    ),
    (
        "history 1 play\nheap 1 0 1\n0 takes 5\nspace used 11 of 16 spine 0 of 0\nend used 16\n",
        Err(4),
    ),
    (
        "history 1 play\nheap 1 0 1\nspace used 11 of 16 spine 0 of 0\n0 takes 5\n0 leave = ok\nend used 16\n",
        Err(5),
    ),
    (
        "history 1 play\nheap 1 0 1\nspace used 11 of 16 spine 0 of 0\nend used 12\n",
        Err(4),
    ),
];

const RUNS: &[Judged] = &[
    (
        "history 1 run\nheap 1 0 1\n0 takes 6\n0 num 1 4 = ok\n0 leave = ok\nend used 17\n",
        Ok(3),
    ),
    (
        "history 1 run\nheap 1 0 1\n0 same 0 1 = yes\nend used 11\n",
        Err(3),
    ),
    (
        "history 1 run\nheap 1 0 1\n0 leave = ok\n0 poll = 0\nend used 11\n",
        Err(4),
    ),
    (
        "history 1 run\nheap 1 0 1\n0 takes 5\nend used 11\n",
        Err(4),
    ),
    (
        "history 1 run\nheap 1 0 1\nc frees 12\nend used 0\n",
        Err(4),
    ),
    (
        "history 1 run\nheap 1 0 1\nc frees 12\nend used 18446744073709551615\n",
        Err(4),
    ),
    (
        "history 1 run\nheap 1 0 1\nc frees 12\n0 takes 1\nend used 0\n",
        Ok(2),
    ),
];

// What a check answers where the verdict is this one.
fn answer_of(verdict: Result<u64, u32>) -> Result<u64, CheckFault> {
    match verdict {
        Ok(entries) => Ok(entries),
        Err(line) => Err(CheckFault::NotLegal { line }),
    }
}

// Each history has its verdict.
fn judges(rt: &(impl Abort + AllocGlobal), histories: &[Judged]) -> Result<(), Fail> {
    for &(text, verdict) in histories {
        same(rt, &checked(rt.alloc(), text)?, &answer_of(verdict), &text);
    }
    Ok(())
}

#[test]
fn judges_plays_in_full(rt: HostRuntime) -> Result<(), Fail> {
    judges(&rt, PLAYS)
}

#[test]
fn judges_runs_for_objects_and_the_last_line(rt: HostRuntime) -> Result<(), Fail> {
    judges(&rt, RUNS)
}
