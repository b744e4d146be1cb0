ghost use Rattle.std.specs.Prelude.{◌≡◌, ◌≢◌, ◌<◌, length};
ghost use Rattle.schism_program.specs.Status.{cause_name, status_number, status_words};

use arrayvec::ArrayString;
use itoa::Buffer;
use script_text::Cause;
use std::io::ErrorKind;

/// How the program ends.
#[derive(Clone, Copy, Debug, PartialEq, Eq)]
pub enum Status {
    Done,
    Refused { line: u32, cause: Cause },
    Usage,
    ReadFault,
    WriteFault,
    Memory,
    TooLong,
    /// The first line of a history that isn't legal.
    NotLegal { line: u32 },
}

impl Status {
    /// The status where the words can't be had, by why not: a word that is no text is in no form.
    pub fn without_words(kind: ErrorKind) -> Status
        ensures no_text { kind ≡ ErrorKind.InvalidData → result ≡ Status.Usage }
        ensures other { kind ≢ ErrorKind.InvalidData → result ≡ Status.Memory }
    {
        match kind {
            ErrorKind::InvalidData => Status::Usage,
            _ => Status::Memory,
        }
    }

    /// The exit status of the process.
    pub fn number(&self) -> u8
        ensures { result ≡ status_number self.now }
    {
        match self {
            Status::Done => 0,
            Status::Refused { .. } => 1,
            Status::Usage => 2,
            Status::ReadFault => 3,
            Status::WriteFault => 4,
            Status::Memory => 5,
            Status::TooLong => 6,
            Status::NotLegal { .. } => 7,
        }
    }
}

fn name_of(cause: Cause) -> &'static str
    ensures { result.now ≡ cause_name cause }
{
    match cause {
        Cause::NoHeader => "NoHeader",
        Cause::BadHeap => "BadHeap",
        Cause::NoSeat => "NoSeat",
        Cause::NoCommand => "NoCommand",
        Cause::BadNumber => "BadNumber",
        Cause::OutOfRange => "OutOfRange",
        Cause::TooManyWords => "TooManyWords",
        Cause::TooManyLines => "TooManyLines",
        Cause::BadEntry => "BadEntry",
        Cause::NoEnd => "NoEnd",
        Cause::HistoryLines => "HistoryLines",
        Cause::NotPlay => "NotPlay",
    }
}

/// What the program says of its end, without a line feed; of `Done` it says nothing.
pub fn status_text(status: &Status) -> ArrayString<64>
    ensures words { result.bytes ≡ status_words status.now }
    ensures short { length result.bytes < 64 }
{
    let mut text = ArrayString::new();
    match *status {
        Status::Done => {}
        Status::Refused { line, cause } => {
            text.push_str("refused at line ");
            text.push_str(Buffer::new().format(line));
            text.push_str(": ");
            text.push_str(name_of(cause));
        }
        Status::Usage => text.push_str("usage"),
        Status::ReadFault => text.push_str("read fault"),
        Status::WriteFault => text.push_str("write fault"),
        Status::Memory => text.push_str("memory"),
        Status::TooLong => text.push_str("too long"),
        Status::NotLegal { line } => {
            text.push_str("not legal at line ");
            text.push_str(Buffer::new().format(line));
        }
    }
    text
}
