ghost use Rattle.std.specs.Prelude.{◌≡◌};
ghost use Rattle.reply_text.specs.write.Counts.{freed_by, is_command, is_end, is_made, is_refused, is_refusal, is_swing};

use heap_model::{Command, Entry, Reply};

/// What a brief counts: commands and those refused, objects made, cycles ended, fragments freed, arrays swung.
#[derive(Clone, Copy, Debug, PartialEq, Eq)]
pub struct BriefCounts {
    pub commands: u64,
    pub refused: u64,
    pub made: u64,
    pub cycles: u64,
    pub freed: u128,
    pub swung: u64,
}

fn is_command(entry: &Entry) -> bool
    ensures { result ≡ is_command entry.now }
{
    match *entry {
        Entry::Said { command, .. } => !matches!(&command, Command::Leave),
        _ => false,
    }
}

fn is_refusal(reply: &Reply) -> bool
    ensures { result ≡ is_refusal reply.now }
{
    match *reply {
        Reply::NoObject | Reply::NoField | Reply::Full { .. } | Reply::SpineFull { .. } => true,
        _ => false,
    }
}

fn is_refused(entry: &Entry) -> bool
    ensures { result ≡ is_refused entry.now }
{
    match *entry {
        Entry::Said { reply, .. } => is_command(entry) && is_refusal(&reply),
        _ => false,
    }
}

fn is_made(entry: &Entry) -> bool
    ensures { result ≡ is_made entry.now }
{
    match *entry {
        Entry::Said { reply, .. } => matches!(&reply, Reply::Made(_)),
        _ => false,
    }
}

fn is_end(entry: &Entry) -> bool
    ensures { result ≡ is_end entry.now }
{
    matches!(entry, Entry::Ends { .. })
}

fn freed_by(entry: &Entry) -> u32
    ensures { result ≡ freed_by entry.now }
{
    match *entry {
        Entry::Frees(count) => count,
        _ => 0,
    }
}

fn is_swing(entry: &Entry) -> bool
    ensures { result ≡ is_swing entry.now }
{
    matches!(entry, Entry::Swings(_))
}

impl BriefCounts {
    ghost use Rattle.reply_text.specs.write.Counts.{counts_of};

    /// What these entries come to together.
    pub fn of(entries: &[Entry]) -> BriefCounts
        ensures { result ≡ counts_of entries.now }
    {
        let mut commands = 0u64;
        let mut refused = 0u64;
        let mut made = 0u64;
        let mut cycles = 0u64;
        let mut freed = 0u128;
        let mut swung = 0u64;
        for entry in entries {
            commands += u64::from(is_command(entry));
            refused += u64::from(is_refused(entry));
            made += u64::from(is_made(entry));
            cycles += u64::from(is_end(entry));
            freed += u128::from(freed_by(entry));
            swung += u64::from(is_swing(entry));
        }
        BriefCounts {
            commands,
            refused,
            made,
            cycles,
            freed,
            swung,
        }
    }
}
