ghost use Rattle.std.specs.Prelude.{◌≡◌, ◌≤◌, ◌<◌, ◌∷◌, ◌++◌, [], length, IfOk, OnOk, OnErr};
ghost use Rattle.heap_model.specs.declared.entry.Entry.TheVariants.{Turned};
ghost use Rattle.heap_model.specs.account.Phases.{TurnShows};
ghost use Rattle.heap_model.specs.account.PhaseCounts.{phase};
ghost use Rattle.heap_runs.specs.PlayHeap.{PlayState, IsPlayed, collector_state_of, MayCall, AnswersCall, TakesTurn};

use heap_model::{Command, Entry, Memory, Reply, Turn, TurnCommand, TurnReply};

/// A heap that a play is made on: whole calls of its seats, one after another, and turns of its collector between them.
/// After want of memory in a call or a turn it is only dropped.
pub trait PlayHeap {
    /// Its heap, the entries of all its parties with what was noted between them, the room for more of the collector's, its turns,
    /// and a number which falls at each turn that neither waits nor ends a cycle.
    ghost state: { Self → PlayState };

    /// Makes a whole call of the seat, after which more turns may be left.
    fn call(&mut self, seat: u8, command: &Command) -> Result<Reply, Memory>
        requires may { MayCall (state self.old) seat command.now }
        ensures answers { IfOk result (AnswersCall (state self.old) (state self.new) seat command.now) };

    /// Makes one turn of the collector, which is one operation on one word of the heap. After one that neither waits nor ends a
    /// cycle fewer turns are left.
    fn turn(&mut self) -> Result<Turn, Memory>
        ensures turn { IfOk result (TakesTurn (state self.old) (state self.new)) }
        ensures memory { OnErr result ((state self.old).spare < 2) };

    /// Makes room for at least `n` more entries of the collector.
    fn room(&mut self, n: usize) -> Result<(), Memory>
        ensures same { state self.new ≡ record (state self.old) { spare = (state self.new).spare } }
        ensures more { (state self.old).spare ≤ (state self.new).spare }
        ensures room { OnOk result (n ≤ (state self.new).spare) }
        ensures memory { OnErr result (state self.new ≡ state self.old) };

    /// For how many more entries of the collector there is room.
    fn spare(&self) -> usize
        ensures { result ≡ (state self.now).spare };

    fn phase(&self) -> u64
        ensures phase { result ≡ phase (state self.now).entries }
        ensures logged { result ≤ length (collector_state_of (state self.now)).log };

    /// The number of turns that were made, or the last number of its type.
    fn turns(&self) -> u64
        ensures { result ≡ (state self.now).turns };

    /// What was told so far. It is a play.
    fn entries(&self) -> &[Entry]
        ensures entries { result.now ≡ (state self.now).entries }
        ensures played { IsPlayed (state self.now).heap (state self.now).entries };

    /// Notes behind its entries what a command of the collector was answered.
    fn note_turned(&mut self, command: TurnCommand, reply: TurnReply) -> Result<(), Memory>
        requires shows { TurnShows (state self.old).heap (state self.old).entries reply }
        ensures noted { OnOk result (state self.new ≡ record (state self.old) { entries = (state self.old).entries ++ Turned command reply ∷ [] }) };

    /// Its entries alone, for which no memory is taken.
    fn into_entries(self) -> Vec<Entry>
        ensures { result.items ≡ (state self).entries };
}
