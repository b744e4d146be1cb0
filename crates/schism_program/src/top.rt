ghost use Rattle.std.specs.Prelude.{◌≡◌, ◌≢◌, ◌⊎◌, ℕ, List, None, map};
ghost use Rattle.form_words.specs.Works.{AskFor, IsForm, IsWork, HasInput};
ghost use Rattle.form_words.specs.declared.work.Work.{Work as AWork};
ghost use Rattle.io_edge.specs.Faults.{Rose};
ghost use Rattle.schism_program.specs.Due.{IsDue};
ghost use Rattle.schism_program.specs.Outcome.{CountsReads, CountsWrites, IsWriting, ReadsNoMore, StatusSays};

use crate::fault::WorkFault;
use crate::input::read_input;
use crate::made::Made;
use crate::serving::made_work;
use crate::status::Status;
use form_words::Work;
use heap_model::Gate;
use heap_table::Closed;
use io_edge::{ReadAllFault, Sink, Source, write_all};
use script_text::LineFault;
use slack_pace::Paces;
use std::alloc::Global;
use std::sync::Wait;
use std::thread::Threads;

/// Leaves this table, or none, in place of what there was.
fn leave(closed: &mut Option<Closed>, table: Option<Closed>)
    ensures { closed.new ≡ table }
{
    *closed = table;
}

/// Does the work, and leaves the table on which it went, if any, where none was left before.
fn do_work<S: Source, K: Sink, G: Gate, R: Threads + Wait + Sync>(
    rt: &R,
    alloc: Global,
    work: Work,
    source: &mut S,
    sink: &mut K,
    paces: Paces,
    gate: &G,
    closed: &mut Option<Closed>,
) -> Status
    requires work { IsWork work }
    requires none { closed.old ≡ None }
    ensures says { (words : List (List ℕ)) → AskFor words work → StatusSays words
        (S.left source.old) (S.left source.new) (K.taken sink.old) (K.taken sink.new) closed.new result }
    ensures formed { result ≢ Status.Usage }
    ensures untouched { ¬ HasInput work → source.new ≡ source.old }
    ensures complete { (words : List (List ℕ)) (status : Status) →
        AskFor words work →
        IsDue words (S.left source.old) status →
        ¬ Rose (S.faults source.old) (S.faults source.new) →
        ¬ Rose (K.faults sink.old) (K.faults sink.new) →
        (result ≡ status) ⊎ (result ≡ Status.Memory) }
    ensures most { (words : List (List ℕ)) → AskFor words work → result ≢ Status.TooLong →
        ReadsNoMore words (S.left source.old) (S.left source.new) }
    ensures unwritten { ¬ IsWriting result → sink.new ≡ sink.old }
    ensures unclosed { result ≢ Status.Done → closed.new ≡ None }
    ensures read_count { CountsReads result (S.faults source.old) (S.faults source.new) }
    ensures write_count { CountsWrites result (K.faults sink.old) (K.faults sink.new) }
{
    let input = match read_input(alloc, work, source) {
        Ok(input) => input,
        Err(ReadAllFault::TooLong) => return Status::TooLong,
        Err(ReadAllFault::ReadFault) => return Status::ReadFault,
        Err(ReadAllFault::Memory) => return Status::Memory,
    };
    let Made {
        text,
        closed: table,
    } = match made_work(rt, alloc, work, input, paces, gate) {
        Ok(made) => made,
        Err(WorkFault::Refused(LineFault { line, cause })) => return Status::Refused {
            line,
            cause,
        },
        Err(WorkFault::NotLegal { line }) => return Status::NotLegal { line },
        Err(WorkFault::Memory) => return Status::Memory,
    };
    match write_all(sink, &text) {
        Ok(()) => {
            leave(closed, table);
            Status::Done
        }
        Err(_) => Status::WriteFault,
    }
}

/// Plays or runs the script that the source gives, or checks the history, or plans space by it, or migrates one of them, or makes a script, as the words ask,
/// and writes what comes of it to the sink. The whole text stands before the first byte is written. The runtime and the gate are for a run alone: what the other forms
/// call to make their text (`played_text`, `verdict`, `plan_text`, `migrated_text`, `made_script_text`) takes neither, and has no bound by which it may start a thread or wait.
/// `closed` gets the table on which a run without the lock went, with its words and logs; whatever it held before is dropped.
pub fn schism<S: Source, K: Sink, G: Gate, R: Threads + Wait + Sync>(
    rt: &R,
    alloc: Global,
    words: &[&str],
    source: &mut S,
    sink: &mut K,
    paces: Paces,
    gate: &G,
    closed: &mut Option<Closed>,
) -> Status
    ensures says { StatusSays (map (λ w. w.now) words.now)
        (S.left source.old) (S.left source.new) (K.taken sink.old) (K.taken sink.new) closed.new result }
    ensures formless { ¬ IsForm (map (λ w. w.now) words.now) → (result ≡ Status.Usage) ⊎ (result ≡ Status.Memory) }
    ensures unread { ¬ IsForm (map (λ w. w.now) words.now) → source.new ≡ source.old }
    ensures untouched { (work : AWork) → AskFor (map (λ w. w.now) words.now) work → ¬ HasInput work →
        source.new ≡ source.old }

    // What words and input call for comes where no fault was counted, unless memory is wanting.
    ensures complete { (status : Status) →
        IsDue (map (λ w. w.now) words.now) (S.left source.old) status →
        ¬ Rose (S.faults source.old) (S.faults source.new) →
        ¬ Rose (K.faults sink.old) (K.faults sink.new) →
        (result ≡ status) ⊎ (result ≡ Status.Memory) }

    // One byte more than the limit is read only where the input is too long.
    ensures most { IsForm (map (λ w. w.now) words.now) → result ≢ Status.TooLong →
        ReadsNoMore (map (λ w. w.now) words.now) (S.left source.old) (S.left source.new) }
    ensures unwritten { ¬ IsWriting result → sink.new ≡ sink.old }
    ensures unclosed { result ≢ Status.Done → closed.new ≡ None }
    ensures read_count { CountsReads result (S.faults source.old) (S.faults source.new) }
    ensures write_count { CountsWrites result (K.faults sink.old) (K.faults sink.new) }
{
    leave(closed, None);
    match Work::of(alloc, words) {
        Ok(Some(work)) => do_work(rt, alloc, work, source, sink, paces, gate, closed),
        Ok(None) => Status::Usage,
        Err(_) => Status::Memory,
    }
}
