ghost use Rattle.space_plan.specs.cycle_turns.CycleTurns.{CycleTurns, EachEventLeavesFewer, EachEndLeavesMost};

/// How many turns a cycle takes at most, over every heap and every run, by the heap's groups and seats alone; and what is left of a cycle in any state that meets the rule.
pub fn law_cycle_turns()
    ensures most { CycleTurns }
    ensures fewer { EachEventLeavesFewer }
    ensures ends { EachEndLeavesMost }
{}
