ghost use Rattle.std.specs.Prelude.{◌≡◌, ℕ, List};
ghost use Rattle.std.specs.List.{AllByRecursion};
ghost use Rattle.reply_text.specs.History.{IsHistory};
ghost use Rattle.reply_text.specs.Migration.{MigratesHistory, migrated_history};
ghost use Rattle.reply_text.specs.Written.{HasText};

use crate::history::History;

/// The history in version 2. No memory is taken.
pub fn migrate_history(mut history: History) -> History
    ensures value { result ≡ migrated_history history }
    ensures spelled { AllByRecursion (HasText history.version) history.entries →
        AllByRecursion (HasText result.version) result.entries }
    // What is written of it is the history's text in version 2, and reads as it.
    ensures migrates { (text : List ℕ) → IsHistory text history → MigratesHistory text history }
{
    history.version = 2;
    history
}
