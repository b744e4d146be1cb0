//! Plans of worked histories.

use super::comparing::same;
use reply_text::read_history;
use script_text::Form;
use space_plan::{CyclePlan, PlanReport, plan, render_plan};
use std::alloc::Global;
use std::test::Fail;

/// A play in which nothing is made.
const EMPTY: &str = "history 1 play\nheap 1 0 1\nspace used 11 of 16 spine 0 of 0\n0 leave = ok\n\
    c phase 1\nc phase 2\nc phase 3\nc phase 4\nc phase 5\nc frees 11\nc phase 6\nc ends 0 kept 0\nend used 0\n";

/// A play that refuses a record, while its seat has a reserve.
const RESERVE: &str = "history 1 play\nheap 1 0 1\n\
    0 takes 5\n0 new 1 2 = 0.0\n0 new 2 47 = full need 16 found 4\n\
    0 nil 1 = ok\nc phase 1\n0 answers 1\nc phase 2\n0 answers 2\n\
    c phase 3\n0 answers 3\nc phase 4\n0 answers 4\nc phase 5\n0 answers 5\n\
    c frees 1\nc phase 6\n0 answers 6\nc ends 0 kept 15\n0 collect = cycle 0\n\
    space used 15 of 16 spine 0 of 0\n\
    0 gives back 4\n0 leave = ok\n\
    c phase 8\nc phase 9\nc phase 10\nc phase 11\nc phase 12\nc frees 11\nc phase 13\nc ends 1 kept 0\n\
    end used 0\n";

/// Its plan as a text.
const RESERVE_PLAN: &str = "plan 1\nheap 1 0 1\n\
    cycle 0 reach 11 since 0 bound 15 used 15 kept 15\ncycle 1 reach 0 since 0 bound 0 used 0 kept 0\n\
    most reach 11 takes 5 need 16\ngroups 4 turns 325\nfull 1\n";

/// A play of two seats, of which one has taken fragments for a call when the cycle begins.
const IN_FLIGHT: &str = "history 1 play\nheap 2 0 2\n\
    0 takes 3\n0 new 1 2 = 0.0\n1 takes 4\nc phase 1\n0 answers 1\n1 takes 1\n1 answers 1\n1 new 1 8 = 1.0\n\
    c phase 2\n0 answers 2\n1 answers 2\nc phase 3\n0 answers 3\n1 answers 3\nc phase 4\n0 answers 4\n1 answers 4\n\
    c phase 5\n0 answers 5\n1 answers 5\nc phase 6\n0 answers 6\n1 answers 6\nc ends 0 kept 19\n\
    space used 19 of 32 spine 0 of 0\nend used 19\n";

/// A play on the least board, of version 2, and its plan as a text.
const LEAST_BOARD: &str =
    "history 2 play\nheap 1 0 1 1\nspace used 1 of 16 spine 0 of 0\n0 leave = ok\n\
    c phase 1\nc phase 2\nc phase 3\nc phase 4\nc phase 5\nc frees 1\nc phase 6\nc ends 0 kept 0\nend used 0\n";

const LEAST_BOARD_PLAN: &str = "plan 1\nheap 1 0 1 1\n\
    cycle 0 reach 0 since 0 bound 0 used 0 kept 0\nmost reach 1 takes 0 need 0\ngroups 1 turns 325\nfull 0\n";

/// What plans have of a first cycle, and of a second, that found nothing and left nothing.
const EMPTY_FIRST: CyclePlan = CyclePlan {
    cycle: 0,
    reach: 0,
    since: 0,
    bound: 0,
    used: 0,
    kept: 0,
};

const EMPTY_SECOND: CyclePlan = CyclePlan {
    cycle: 1,
    reach: 0,
    since: 0,
    bound: 0,
    used: 0,
    kept: 0,
};

/// What a plan has of the cycle that kept the reserve.
const KEPT: CyclePlan = CyclePlan {
    cycle: 0,
    reach: 11,
    since: 0,
    bound: 15,
    used: 15,
    kept: 15,
};

/// What a plan has of the cycle beside whose begin a call was in flight.
const BESIDE: CyclePlan = CyclePlan {
    cycle: 0,
    reach: 12,
    since: 5,
    bound: 19,
    used: 19,
    kept: 19,
};

/// A play; of its plan the most reach, takes and need, the groups, the turns and the refusals; and its cycles.
const PLANS: [(&str, [u64; 6], &[CyclePlan]); 3] = [
    (EMPTY, [11, 0, 0, 2, 325, 0], &[EMPTY_FIRST]),
    (RESERVE, [11, 5, 16, 4, 325, 1], &[KEPT, EMPTY_SECOND]),
    (IN_FLIGHT, [12, 8, 3, 4, 674, 0], &[BESIDE]),
];

/// The plan of the text, which is a legal play.
fn plan_of(alloc: Global, text: &str) -> Result<PlanReport, Fail> {
    let history = read_history(alloc, text.as_bytes())?;
    match history.form {
        Form::Play => Ok(plan(alloc, &history)?),
        Form::Run => Err("a run".into()),
    }
}

/// The greatest numbers of a report, the groups, the turns and the refusals.
fn totals(report: &PlanReport) -> [u64; 6] {
    [
        report.most_reach,
        report.most_takes,
        report.most_need,
        report.groups,
        report.turns,
        report.full,
    ]
}

#[test]
fn plans_worked_plays(rt: HostRuntime) -> Result<(), Fail> {
    for (text, most, cycles) in PLANS {
        let report = plan_of(rt.alloc(), text)?;
        same(&rt, &totals(&report), &most, &text);
        same(&rt, &report.cycles.as_slice(), &cycles, &text);
    }
    Ok(())
}

/// The text of the plan of the play that the text is.
fn told(alloc: Global, text: &str) -> Result<Vec<u8>, Fail> {
    let report = plan_of(alloc, text)?;
    let history = read_history(alloc, text.as_bytes())?;
    Ok(render_plan(alloc, &history.preamble(), &report)?)
}

#[test]
fn tells_plans(rt: HostRuntime) -> Result<(), Fail> {
    for (text, wanted) in [(RESERVE, RESERVE_PLAN), (LEAST_BOARD, LEAST_BOARD_PLAN)] {
        let found = told(rt.alloc(), text)?;
        same(&rt, &found.as_slice(), &wanted.as_bytes(), &text);
    }
    Ok(())
}
