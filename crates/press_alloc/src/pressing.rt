ghost use Rattle.std.specs.Prelude.{◌≡◌, ◌↔◌, true, IsTrue, IfOk, OnOk};
ghost use Rattle.heap_model.specs.account.Account.{IsLegal};
ghost use Rattle.press_alloc.specs.Calls.{MayCall, AddsCall};
ghost use Rattle.press_alloc.specs.Presses.{IsAllocation, RefusesSpace, IsPressed};
ghost use Rattle.press_alloc.specs.Refusals.{HasNoFragments, HasNoWords, HasCollected};

use crate::caller::Caller;
use heap_model::{Command, Memory, Reply};

/// Whether the reply refuses space: fragments, or spine words.
fn refuses_space(reply: &Reply) -> bool
    ensures { IsTrue result ↔ RefusesSpace reply.now }
{
    matches!(reply, Reply::Full { .. } | Reply::SpineFull { .. })
}

/// Makes a command that allocates. Where that is refused for want of space, the seat collects, the command is made
/// again, and its second reply is answered. So on a heap with one seat a refusal that is answered is final: all that is
/// reached stands in the way.
pub fn press<W: Caller>(whole: &mut W, seat: u8, command: &Command) -> Result<Reply, Memory>
    requires may { MayCall (W.heap whole.old) (W.history whole.old) seat command.now }
    requires allocates { IsAllocation command.now }
    ensures heap { OnOk result (W.heap whole.new ≡ W.heap whole.old) }
    ensures adds { IfOk result (IsPressed AddsCall (W.history whole.old) (W.history whole.new) seat command.now) }
    ensures called { IfOk result (IsPressed W.called whole.old whole.new seat command.now) }
    ensures legal { OnOk result (IsLegal (W.heap whole.new) true (W.history whole.new)) }
    ensures fragments { IfOk result (HasNoFragments (W.heap whole.new) (W.history whole.new)) }
    ensures words { IfOk result (HasNoWords (W.heap whole.new) (W.history whole.new)) }
    ensures cycle { IfOk result (HasCollected (W.heap whole.new) (W.history whole.old) (W.history whole.new)) }
{
    let reply = whole.call(seat, command)?;
    if !refuses_space(&reply) {
        return Ok(reply);
    }
    whole.call(seat, &Command::Collect)?;
    whole.call(seat, command)
}
