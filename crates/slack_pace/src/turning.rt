ghost use Rattle.std.specs.Prelude.{◌≡◌, ◌+◌, ◌<◌, ◌≤◌, length};
ghost use Rattle.slack_pace.specs.Slack.{slack_room, MakesEach, MakesTurns, CountsTurns, last_made, HasWaited};

use crate::pace::Pace;
use heap_model::{CollectorCalls, Turn, TurnsMade};

/// How many turns a pace asked for, how many of them were made, and what the last of these came to.
#[derive(Clone, Copy, Debug, PartialEq, Eq)]
pub struct SlackDone {
    pub asked: u64,
    pub made: u64,
    pub last: Option<Turn>,
}

/// Makes the turns that the pace asks for, or those up to the first that waits. It takes no memory.
pub fn slack<C: CollectorCalls>(
    pace: &mut Box<dyn Pace>,
    collector: &mut C,
    claimed: u64,
) -> SlackDone
    requires { slack_room ≤ (C.state collector.old).spare }
    ensures asked { result.asked ≡ asks pace.old claimed }
    ensures came { came pace.old claimed (kept pace.new) }
    ensures most { result.made ≤ result.asked }
    ensures fewer { result.made < result.asked → HasWaited result.last }
    ensures each { MakesEach C.turned result.made collector.old collector.new }
    ensures made { MakesTurns result.made (C.state collector.old) (C.state collector.new) }
    ensures counted { CountsTurns result.made (C.state collector.old) (C.state collector.new) }
    ensures last { result.last ≡ last_made result.made (C.state collector.new) }
    ensures entries { length (C.state collector.new).log ≤ length (C.state collector.old).log + result.made }
    ensures spare { (C.state collector.old).spare + length (C.state collector.old).log ≤ (C.state collector.new).spare + length (C.state collector.new).log }
    ensures no_more { (C.state collector.new).spare ≤ (C.state collector.old).spare }
{
    let asked = pace.turns(claimed);
    let TurnsMade { made, last } = collector.take_turns(asked);
    SlackDone { asked, made, last }
}
