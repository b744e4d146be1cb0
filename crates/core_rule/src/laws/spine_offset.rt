ghost use Rattle.core_rule.specs.budgets.SpineLaws.{EachOffsetIsWithin, EachGrantIsPlaced, EachCopyFits};

/// Where the next spine has its place, after every run: within the words that are granted, so that a grant is always placed and a copy always fits.
pub fn law_spine_offset()
    ensures offset { EachOffsetIsWithin }
    ensures placed { EachGrantIsPlaced }
    ensures fits { EachCopyFits }
{}
