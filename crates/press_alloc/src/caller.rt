ghost use Rattle.std.specs.Prelude.{◌≡◌, ℕ, true, List, IfOk, OnOk};
ghost use Rattle.heap_model.specs.declared.command.Command.{Command};
ghost use Rattle.heap_model.specs.declared.entry.Entry.{Entry};
ghost use Rattle.heap_model.specs.declared.heap.Heap.{Heap};
ghost use Rattle.heap_model.specs.declared.reply.Reply.{Reply};
ghost use Rattle.heap_model.specs.account.Account.{IsLegal};
ghost use Rattle.press_alloc.specs.Calls.{MayCall, AddsCall};

use heap_model::{Command, Entry, Memory, Reply};

/// A heap whose seats make whole calls. After want of memory in a call it is only dropped.
pub trait Caller {
    /// Its sizes.
    ghost heap: { Self → Heap };

    /// What all its parties told, in order.
    ghost history: { Self → List Entry };

    /// What more one of its calls does.
    ghost called: { Self → Self → ℕ → Command → Reply → Type 0 } = { λ _ _ _ _ _. Unit {0} };

    /// Makes a whole call of the seat, and answers its reply.
    fn call(&mut self, seat: u8, command: &Command) -> Result<Reply, Memory>
        requires may { MayCall (heap self.old) (history self.old) seat command.now }
        ensures heap { OnOk result (heap self.new ≡ heap self.old) }
        ensures adds { IfOk result (AddsCall (history self.old) (history self.new) seat command.now) }
        ensures legal { OnOk result (IsLegal (heap self.new) true (history self.new)) }
        ensures called { IfOk result (called self.old self.new seat command.now) };

    /// What was told so far. It is a play.
    fn entries(&self) -> &[Entry]
        ensures entries { result.now ≡ history self.now }
        ensures legal { IsLegal (heap self.now) true (history self.now) };
}
