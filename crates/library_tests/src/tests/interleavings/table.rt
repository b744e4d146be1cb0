ghost use Rattle.std.specs.Prelude.{◌≤◌, ◌<◌};
ghost use Rattle.heap_model.specs.Heap.{IsHeap};
ghost use Rattle.script_text.specs.Made.{most_start};

use super::draws::Draws;
use super::player::{Player, Told, players_of};
use core_machine::Log;
use heap_model::{Heap, Memory, Turn};
use heap_table::{Closed, CollectorHolder, HeapTable};
use script_text::make_script;
use std::alloc::Global;
use std::marker::Model;

/// More steps than a play here takes.
const MANY: u32 = 100_000;

/// How many commands a script has.
const COMMANDS: u32 = 40;

/// The parties of one table, what they have told, and the seat for which the collector's last turn waited.
#[derive(Drop)]
struct Table {
    players: Vec<Player>,
    collector: CollectorHolder,
    told: Told,
    waited: Option<u8>,
}

impl Model for Table {
    ghost use Rattle.heap_table.specs.CollectorHeld.{CollectorHeld};
    ghost use Rattle.std.specs.Prelude.{All};
    ghost use Rattle.library_tests.specs.SameSeat.{IsOfTable};

    ghost Value = { CollectorHeld };

    ghost view = { λ table. table.collector };

    ghost invariant = { λ table. All (λ player. IsOfTable table.collector player.holder) table.players.items };
}

impl Table {
    /// The table of a heap that opens, whose seats are to make the commands of the script that is made from this start.
    fn opening(alloc: Global, heap: Heap, start: u32) -> Result<Table, Memory>
        requires limits { IsHeap heap }
        requires start { start ≤ most_start }
    {
        let script = make_script(alloc, start, heap.seats, COMMANDS)?;
        let (holders, collector) = HeapTable::make::<Log, Log>(alloc, heap)?;
        Ok(Table {
            players: players_of(alloc, holders, script.lines.as_slice())?,
            collector,
            told: Vec::new(alloc),
            waited: None,
        })
    }

    /// One step, or one begin, of the party that is drawn. The collector is drawn as often as so many seats would be.
    fn go_on(&mut self, draws: &mut Draws, turns: usize) -> Result<(), Memory>
        requires { 1 ≤ turns }
    {
        let party = draws.below(self.players.len().saturating_add(turns));
        if party >= self.players.len() {
            self.turn()?;
            return Ok(());
        }
        let polls = self.waited.is_some_and(|seat| usize::from(seat) == party);
        let player = &mut self.players[party];
        player.go_on(polls, &mut self.told)
    }

    /// Makes a turn, and notes what it tells.
    fn turn(&mut self) -> Result<Turn, Memory> {
        self.collector.room(2)?;
        let before = self.collector.log().len();
        let turn = self.collector.turn().1;
        self.waited = match turn {
            Turn::Waits { seat, .. } => Some(seat),
            _ => None,
        };
        for entry in self.collector.log().iter().skip(before) {
            self.told.push(Some(*entry))?;
        }
        Ok(turn)
    }

    /// Makes turns up to the end of a cycle.
    fn end_cycle(&mut self) -> Result<(), Memory> {
        for _ in 0..MANY {
            if let Turn::Ended { .. } = self.turn()? {
                break;
            }
        }
        Ok(())
    }

    /// Whether every seat has left.
    fn have_left(&self) -> bool {
        self.players
            .iter()
            .all(|player| player.holder.party().left())
    }

    /// Folds in the last seat that wasn't yet, if it has left.
    fn fold_in(&mut self) {
        let Some(player) = self.players.pop() else {
            return;
        };
        if player.holder.party().left() {
            self.collector.fold_in(player.holder);
        }
    }

    /// Closes the table, if every seat was folded in.
    fn close(self, alloc: Global) -> Option<(Told, Closed)> {
        let Table {
            collector,
            told,
            ..
        } = self;
        if !collector.all_folded() {
            return None;
        }
        match collector.close(alloc) {
            Ok(closed) => Some((told, closed)),
            Err(_) => None,
        }
    }
}

/// Makes steps, in an order that is drawn from this start, until every seat has left.
fn play(table: &mut Table, start: u32) -> Result<(), Memory> {
    let mut draws = Draws::from(start);
    let turns = 1 + draws.below(8);
    for _ in 0..MANY {
        if table.have_left() {
            break;
        }
        table.go_on(&mut draws, turns)?;
    }
    Ok(())
}

/// Folds in the seats, and makes a last whole cycle.
fn end(table: &mut Table, seats: u8) -> Result<(), Memory> {
    for _ in 0..seats {
        table.fold_in();
    }
    table.end_cycle()?;
    table.end_cycle()
}

/// Plays the script that is made from this start, in an order that is drawn from it too, with a last whole cycle once every seat has left; none where it didn't come to its end.
pub(super) fn played(
    alloc: Global,
    heap: Heap,
    start: u32,
) -> Result<Option<(Told, Closed)>, Memory>
    requires limits { IsHeap heap }
    requires start { start ≤ most_start }
{
    let mut table = Table::opening(alloc, heap, start)?;
    play(&mut table, start)?;
    end(&mut table, heap.seats)?;
    Ok(table.close(alloc))
}
