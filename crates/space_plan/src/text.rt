ghost use Rattle.std.specs.Prelude.{◌≡◌, ◌++◌, ◌∷◌, [], decimal, map, IfOk, OnOk};
ghost use Rattle.script_text.specs.Text.{text_of, words_with_spaces};
ghost use Rattle.space_plan.specs.Text.{cycle_line, found_words, full_line, left_words, most_line, plan_lines, sizes_line, total_lines};

use crate::report::{CyclePlan, PlanReport};
use heap_model::Memory;
use script_text::{Preamble, push_heap_line, push_named, push_number};
use std::alloc::Global;

/// Begins a line with the word and the number.
fn begin_line(text: &mut Vec<u8>, word: &[u8], number: u64) -> Result<(), Memory>
    ensures { OnOk result (text.new.items ≡ text.old.items ++ (word.now ++ 32 ∷ decimal number)) }
{
    text.extend_from_slice(word)?;
    push_number(text, number)
}

/// Appends what a cycle found and may leave.
fn push_found(text: &mut Vec<u8>, plan: &CyclePlan) -> Result<(), Memory>
    ensures { OnOk result (text.new.items ≡ text.old.items ++ words_with_spaces (found_words plan.now)) }
{
    push_named(text, b"reach", plan.reach)?;
    push_named(text, b"since", plan.since)?;
    push_named(text, b"bound", plan.bound)
}

/// Appends what a cycle left.
fn push_left(text: &mut Vec<u8>, plan: &CyclePlan) -> Result<(), Memory>
    ensures { OnOk result (text.new.items ≡ text.old.items ++ words_with_spaces (left_words plan.now)) }
{
    push_named(text, b"used", plan.used)?;
    push_named(text, b"kept", plan.kept)
}

/// Appends the line of a cycle and its line feed.
#[tactic(auto, using(crate::proofs::text_lemmas::Lines::spelling))]
fn push_cycle(text: &mut Vec<u8>, plan: &CyclePlan) -> Result<(), Memory>
    ensures { OnOk result (text.new.items ≡ text.old.items ++ (cycle_line plan.now ++ 10 ∷ [])) }
{
    begin_line(text, b"cycle", plan.cycle)?;
    push_found(text, plan)?;
    push_left(text, plan)?;
    text.push(b'\n')?;
    Ok(())
}

/// Appends the lines of cycles, each with its line feed.
fn push_cycles(text: &mut Vec<u8>, cycles: &[CyclePlan]) -> Result<(), Memory>
    ensures { OnOk result (text.new.items ≡ text.old.items ++ text_of (map cycle_line cycles.now)) }
{
    for plan in cycles {
        push_cycle(text, plan)?;
    }
    Ok(())
}

/// Appends the line of the greatest numbers of fragments, and its line feed.
#[tactic(auto, using(crate::proofs::text_lemmas::Lines::spelling))]
fn push_most(text: &mut Vec<u8>, report: &PlanReport) -> Result<(), Memory>
    ensures { OnOk result (text.new.items ≡ text.old.items ++ (most_line report.now ++ 10 ∷ [])) }
{
    text.extend_from_slice(b"most")?;
    push_named(text, b"reach", report.most_reach)?;
    push_named(text, b"takes", report.most_takes)?;
    push_named(text, b"need", report.most_need)?;
    text.push(b'\n')?;
    Ok(())
}

/// Appends the line of the groups and of a cycle's turns, and its line feed.
#[tactic(auto, using(crate::proofs::text_lemmas::Lines::spelling))]
fn push_sizes(text: &mut Vec<u8>, report: &PlanReport) -> Result<(), Memory>
    ensures { OnOk result (text.new.items ≡ text.old.items ++ (sizes_line report.now ++ 10 ∷ [])) }
{
    begin_line(text, b"groups", report.groups)?;
    push_named(text, b"turns", report.turns)?;
    text.push(b'\n')?;
    Ok(())
}

/// Appends the line of the refusals, and its line feed.
#[tactic(auto, using(crate::proofs::text_lemmas::Lines::spelling))]
fn push_full(text: &mut Vec<u8>, report: &PlanReport) -> Result<(), Memory>
    ensures { OnOk result (text.new.items ≡ text.old.items ++ (full_line report.now ++ 10 ∷ [])) }
{
    begin_line(text, b"full", report.full)?;
    text.push(b'\n')?;
    Ok(())
}

/// Appends the three lines of totals, each with its line feed.
fn push_totals(text: &mut Vec<u8>, report: &PlanReport) -> Result<(), Memory>
    ensures { OnOk result (text.new.items ≡ text.old.items ++ text_of (total_lines report.now)) }
{
    push_most(text, report)?;
    push_sizes(text, report)?;
    push_full(text, report)
}

/// The text of a plan: the heap line of the history that it is of, a line for each cycle, and three of totals.
pub fn render_plan(
    alloc: Global,
    preamble: &Preamble,
    report: &PlanReport,
) -> Result<Vec<u8>, Memory>
    ensures { IfOk result (λ text. text.items ≡ text_of (plan_lines preamble.now report.now)) }
{
    let mut text = Vec::from_slice(alloc, b"plan 1\n")?;
    push_heap_line(&mut text, preamble)?;
    push_cycles(&mut text, report.cycles.as_slice())?;
    push_totals(&mut text, report)?;
    Ok(text)
}
