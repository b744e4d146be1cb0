ghost use Rattle.std.specs.Prelude.{◌≡◌, ◌≢◌, ◌≤◌, ◌<◌, ◌∷◌, ◌++◌, [], IfOk, OnOk, OnErr};
ghost use Rattle.heap_model.specs.declared.command.Command.TheVariants.{Collect};
ghost use Rattle.heap_model.specs.Heap.{IsHeap};
ghost use Rattle.heap_model.specs.account.PhaseCounts.{phase};
ghost use Rattle.heap_record.specs.Recorded.{StandsStill, MakesCall, MakesTurn};
ghost use Rattle.heap_runs.specs.PlayHeap.{PlayState, IsPlayed, MayCall, AnswersOnce, AnswersCall, TakesTurn};
ghost use Rattle.heap_runs.specs.MachineHeap.{play_state_of, run_state_of, NotesRightly, IsFresh, CallsMachine};

use crate::play_heap::PlayHeap;
use core_machine::{Machine, RecentLog};
use core_rule::law_every_run;
use heap_model::{
    CollectorCalls, Command, Entry, Heap, Memory, Reply, Turn, TurnCommand, TurnReply, account_laws,
};
use heap_record::Recorder;
use std::alloc::Global;
use std::marker::Model;

mod collecting;

/// A heap over the machine of single steps: a call is all steps of the machine's call, and a turn is one step of its collector.
#[derive(Drop)]
pub struct MachineHeap {
    recorder: Recorder<RecentLog>,
}

impl Model for MachineHeap {
    ghost use Rattle.heap_record.specs.Recorded.{Recorded};
    ghost use Rattle.heap_runs.specs.MachineHeap.{IsBetweenCalls, NotesRightly};

    ghost Value = { Recorded };

    ghost view = { λ whole. whole.recorder };

    ghost invariant = { λ whole. IsBetweenCalls whole.recorder.machine.heap whole.recorder.machine.state whole.recorder.history
        × NotesRightly whole.recorder };
}

impl MachineHeap {
    /// The heap as it opens.
    pub fn make(alloc: Global, heap: Heap) -> Result<MachineHeap, Memory>
        requires { IsHeap heap }
        ensures { IfOk result (IsFresh heap) }
    {
        let machine = Machine::with_logs(alloc, heap)?;
        Ok(MachineHeap {
            recorder: Recorder::new(alloc, machine),
        })
    }
}

impl MachineHeap {
    /// Makes room for what a turn may add, where there is too little.
    fn make_ready(&mut self) -> Result<(), Memory>
        ensures still { StandsStill self.old self.new }
        ensures more { self.old.spare ≤ self.new.spare }
        ensures room { OnOk result (2 ≤ self.new.spare) }
        ensures enough { 2 ≤ self.old.spare → self.new ≡ self.old }
        ensures memory { OnErr result (self.old.spare < 2) }
    {
        if self.spare() < 2 {
            self.room(2)?;
        }
        Ok(())
    }

    /// What was noted between the machine's entries.
    fn known_noted(&self)
        ensures { NotesRightly self.now }
    {
        let _ = &self.recorder;
    }

    /// Makes a whole call of the seat, which is no collect.
    fn call_once(&mut self, seat: u8, command: &Command) -> Result<Reply, Memory>
        requires may { MayCall (run_state_of self.old) seat command.now }
        requires once { command.now ≢ Collect }
        ensures answers { IfOk result (AnswersOnce (run_state_of self.old) (run_state_of self.new) seat command.now) }
        ensures machine { IfOk result (MakesCall self.old self.new seat command.now) }
    {
        law_every_run();
        let reply = self.recorder.call(seat, command)?;
        Ok(reply)
    }

    /// Makes a turn, for which there is room.
    fn make_turn(&mut self) -> Turn
        requires room { 2 ≤ self.old.spare }
        ensures turn { TakesTurn (run_state_of self.old) (run_state_of self.new) result }
        ensures machine { MakesTurn self.old self.new result }
    {
        law_every_run();
        self.recorder.turn()
    }

    /// Makes a call of the seat: a collect, or another one.
    fn call_run(&mut self, seat: u8, command: &Command) -> Result<Reply, Memory>
        requires may { MayCall (run_state_of self.old) seat command.now }
        ensures answers { IfOk result (AnswersCall (run_state_of self.old) (run_state_of self.new) seat command.now) }
        ensures machine { IfOk result (CallsMachine self.old self.new seat command.now) }
    {
        law_every_run();
        self.known();
        let reply = match *command {
            Command::Collect => self.collect(seat)?,
            _ => self.call_once(seat, command)?,
        };
        Ok(reply)
    }

    /// The phase by the machine's entries.
    fn run_phase(&self) -> u64
        ensures { result ≡ phase self.now.history }
    {
        self.recorder.phase()
    }

    /// Makes a turn, and the room for it.
    fn take_turn(&mut self) -> Result<Turn, Memory>
        ensures turn { IfOk result (TakesTurn (run_state_of self.old) (run_state_of self.new)) }
        ensures memory { OnErr result (self.old.spare < 2) }
        ensures machine { IfOk result (MakesTurn self.old self.new) }
    {
        self.make_ready()?;
        Ok(self.make_turn())
    }
}

impl PlayHeap for MachineHeap {
    ghost state = { play_state_of };

    fn call(&mut self, seat: u8, command: &Command) -> Result<Reply, Memory>
        requires may { MayCall (play_state_of self.old) seat command.now }
        ensures answers { IfOk result (AnswersCall (play_state_of self.old) (play_state_of self.new) seat command.now) }
        ensures machine { IfOk result (CallsMachine self.old self.new seat command.now) }
    {
        self.known_noted();
        let reply = self.call_run(seat, command)?;
        self.known_noted();
        Ok(reply)
    }

    fn turn(&mut self) -> Result<Turn, Memory>
        ensures turn { IfOk result (TakesTurn (play_state_of self.old) (play_state_of self.new)) }
        ensures memory { OnErr result ((play_state_of self.old).spare < 2) }
        ensures machine { IfOk result (MakesTurn self.old self.new) }
    {
        self.known_noted();
        let turn = self.take_turn()?;
        self.known_noted();
        Ok(turn)
    }

    fn room(&mut self, n: usize) -> Result<(), Memory>
        ensures same { play_state_of self.new ≡ record (play_state_of self.old) { spare = (play_state_of self.new).spare } }
        ensures more { (play_state_of self.old).spare ≤ (play_state_of self.new).spare }
        ensures room { OnOk result (n ≤ (play_state_of self.new).spare) }
        ensures memory { OnErr result (play_state_of self.new ≡ play_state_of self.old) }
        ensures machine { StandsStill self.old self.new }
    {
        self.recorder.room(n)
    }

    fn spare(&self) -> usize {
        self.recorder.spare()
    }

    fn phase(&self) -> u64 {
        self.known_noted();
        self.run_phase()
    }

    fn turns(&self) -> u64 {
        self.recorder.turns()
    }

    fn entries(&self) -> &[Entry] {
        law_every_run();
        account_laws();
        self.recorder.entries()
    }

    fn note_turned(&mut self, command: TurnCommand, reply: TurnReply) -> Result<(), Memory> {
        self.recorder.note(Entry::Turned { command, reply })?;
        Ok(())
    }

    fn into_entries(self) -> Vec<Entry> {
        self.recorder.into_entries()
    }
}
