use crate::collector::strides::{Stride, turn_next};
use crate::rule::{Token, Words};
use core_machine::{Copying, Stage, Step, TurningStep, visit as visit_group};
use heap_model::Heap;

/// The loads by which arrays are looked for whose spines are to be copied: of groups' control words, and of marked fragments' first words.
pub(crate) struct VisitLoads;

impl Stride for VisitLoads {
    #[inline(always)]
    fn turn(table: &Words, token: &mut Token, heap: &Heap, stage: &Stage) -> Option<Stage> {
        match *stage {
            Stage::Copying(Copying::Visiting { group }) => {
                let step = Step::Turning(TurningStep::GroupLoad { group });
                let word = turn_next(table, token, heap, &step);
                Some(visit_group(heap, group, word))
            }
            Stage::Copying(Copying::Inspecting(visit)) => {
                let fragment = visit.fragment();
                let step = Step::Turning(TurningStep::MetaLoad { fragment });
                let meta = turn_next(table, token, heap, &step);
                Some(visit.inspected(heap, meta))
            }
            _ => None,
        }
    }
}
