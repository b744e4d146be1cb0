use crate::job::Job;
use crate::position_rule::PositionQueue;
use heap_model::Gate;
use std::alloc::Global;

/// What the workers of a crew share beside the lock round the collector: the queue of the jobs' positions, the jobs, and the gate.
#[derive(Drop)]
pub struct Site<'a, G: Gate> {
    pub alloc: Global,
    pub queue: &'a PositionQueue,
    pub jobs: &'a [Job],
    pub gate: &'a G,
}
