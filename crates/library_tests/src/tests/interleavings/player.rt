ghost use Rattle.std.specs.Prelude.{◌≡◌, map, IfOk};
ghost use Rattle.library_tests.specs.SameSeat.{IsSameSeat};

use core_machine::{Access, Point};
use heap_model::{Command, Entry, Memory};
use heap_table::Holder;
use script_text::Line;
use std::alloc::Global;

/// The entries of all parties in the order in which they came. A get's reply stands where its field was loaded; until its object's name is loaded too, none stands there.
pub(super) type Told = Vec<Option<Entry>>;

/// A seat's holder with its commands that are yet to come, the last one first, and the position of the reply that it awaits.
#[derive(Drop)]
pub(super) struct Player {
    pub holder: Holder,
    commands: Vec<Command>,
    awaited: Option<usize>,
}

/// The command; half of those on fields are on one field of the board, which all seats share, and half of those that look at no field bring something there.
fn on_shared(command: Command) -> Command {
    match command {
        Command::Get { d, i, .. } if i < 4 => Command::Get { d, r: 0, i: 0 },
        Command::Set { i, v, .. } if i < 4 => Command::Set { r: 0, i: 0, v },
        Command::Num { d, n } if n % 2 == 0 => Command::Copy { d, r: 0 },
        Command::Same { a, .. } if a % 2 == 0 => Command::Set { r: 0, i: 0, v: a },
        other => other,
    }
}

/// The seat's commands among these lines, and that it leaves; the last one first.
fn commands_of(alloc: Global, lines: &[Line], number: u8) -> Result<Vec<Command>, Memory> {
    let mut commands = Vec::new(alloc);
    commands.push(Command::Leave)?;
    for line in lines.iter().rev() {
        if let Line::Seat { seat, command } = *line {
            if seat == number {
                commands.push(on_shared(command))?;
            }
        }
    }
    Ok(commands)
}

/// A player for each of these holders, in their order, which is to make its commands among these lines.
pub(super) fn players_of(
    alloc: Global,
    holders: Vec<Holder>,
    lines: &[Line],
) -> Result<Vec<Player>, Memory>
    ensures { IfOk result (λ players. map (λ player. player.holder) players.items ≡ holders.items) }
{
    let mut players = Vec::new(alloc);
    for holder in holders {
        let player = Player::of(alloc, holder, lines)?;
        players.push(player)?;
    }
    Ok(players)
}

impl Player {
    /// The seat of this holder, which is to make its commands among these lines.
    fn of(alloc: Global, holder: Holder, lines: &[Line]) -> Result<Player, Memory>
        ensures { IfOk result (λ player. player.holder ≡ holder) }
    {
        let commands = commands_of(alloc, lines, holder.number())?;
        Ok(Player {
            holder,
            commands,
            awaited: None,
        })
    }

    /// Makes the due step, and notes what it tells; where none is due it begins a poll, if one is wanted, or else its next command.
    pub fn go_on(&mut self, polls: bool, told: &mut Told) -> Result<(), Memory>
        ensures { IsSameSeat self.old.holder self.new.holder }
    {
        let Some(step) = self.holder.due() else {
            self.begin(polls);
            return Ok(());
        };
        self.holder.room(2)?;
        let before = self.holder.log().len();
        self.holder.step(&step);
        self.note(before, told)
    }

    /// Begins a poll or the next command. A command that may not be begun stays the next.
    fn begin(&mut self, polls: bool)
        ensures { IsSameSeat self.old.holder self.new.holder }
    {
        if polls && self.holder.may_begin(&Command::Poll) {
            self.holder.begin(Command::Poll);
            return;
        }
        let Some(command) = self.commands.last().copied() else {
            return;
        };
        if self.holder.may_begin(&command) {
            self.holder.begin(command);
            self.commands.pop();
        }
    }

    /// Notes what the seat has told behind so many entries.
    fn note(&mut self, before: usize, told: &mut Told) -> Result<(), Memory>
        ensures { self.new.holder ≡ self.old.holder }
    {
        for entry in self.holder.log().iter().skip(before) {
            match self.awaited.take() {
                Some(position) => put(told, position, *entry),
                None => told.push(Some(*entry))?,
            }
        }
        if let Point::Access(Access::Naming) = self.holder.party().point() {
            self.awaited = Some(told.len());
            told.push(None)?;
        }
        Ok(())
    }
}

/// The entry that was awaited at this position stands there.
fn put(told: &mut Told, position: usize, entry: Entry) {
    if let Some(awaited) = told.get_mut(position) {
        *awaited = Some(entry);
    }
}
