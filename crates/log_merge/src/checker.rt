ghost use Rattle.std.specs.Prelude.{◌≡◌, [], IfOk};
ghost use Rattle.heap_model.specs.Heap.{IsHeap};
ghost use Rattle.log_merge.specs.Checking.{AccountFits, Passed};

use heap_model::{Account, Graph, Heap, Memory};
use script_text::Form;
use std::alloc::Global;

mod judging;
mod passing;

/// Goes over the lines of a history, by a graph and, in a play, an account of the entries so far.
#[derive(Drop)]
pub struct Checker {
    heap: Heap,
    /// The number of the next line.
    line: u32,
    graph: Graph,
    account: Option<Account>,
}

impl Checker {
    pub fn new(alloc: Global, form: Form, heap: Heap) -> Result<Checker, Memory>
        requires { IsHeap heap }
        ensures passed { IfOk result (λ checker. Passed form checker []) }
        ensures heap { IfOk result (λ checker. checker.heap ≡ heap) }
        ensures line { IfOk result (λ checker. checker.line ≡ 3) }
        ensures ready { IfOk result AccountFits }
    {
        let account = match form {
            Form::Play => Some(Account::new(alloc, heap)?),
            Form::Run => None,
        };
        Ok(Checker {
            heap,
            line: 3,
            graph: Graph::new(alloc, heap)?,
            account,
        })
    }
}
