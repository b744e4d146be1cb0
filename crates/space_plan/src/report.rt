/// What a cycle that ended found and left: the fragments that were reached when it began, those taken since each
/// seat's last reply before that, the most that it may leave, and how many were in use and kept at its end.
#[derive(Clone, Copy, Debug, PartialEq, Eq)]
pub struct CyclePlan {
    pub cycle: u64,
    pub reach: u64,
    pub since: u64,
    pub bound: u64,
    pub used: u64,
    pub kept: u64,
}

/// The plan of a history: its cycles, its greatest numbers of fragments, the groups that have room for them,
/// the turns planned for a cycle of its heap, and how many commands were refused for want of fragments.
#[derive(Debug, Drop)]
pub struct PlanReport {
    pub cycles: Vec<CyclePlan>,
    pub most_reach: u64,
    pub most_takes: u64,
    pub most_need: u64,
    pub groups: u64,
    pub turns: u64,
    pub full: u64,
}
