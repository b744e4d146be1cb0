ghost use Rattle.std.specs.Prelude.{◌≡◌, ◌<◌, ◌≤◌, ◌+◌, ◌-◌, ◌^◌, [], ◌∷◌, ◌++◌, List, ℕ, length, map, Err, IfErr, OnOk};
ghost use Rattle.std.specs.List.{AllByRecursion};
ghost use Rattle.std.specs.Option.{ForSome};
ghost use Rattle.heap_model.specs.account.Noting.{IsSeatBelow};
ghost use Rattle.script_text.specs.declared.script.Form.{Form};
ghost use Rattle.reply_text.specs.declared.history_line.HistoryLine.{HistoryLine};
ghost use Rattle.reply_text.specs.declared.history_line.HistoryLine.TheVariants as lines;
ghost use Rattle.reply_text.specs.History.{lines_with_mark, space_line, IsSpellable};
ghost use Rattle.log_merge.specs.Legal.{IsLegalHistory, ShowsUse};
ghost use Rattle.log_merge.specs.Lines.{entries_of, IsFirstIllegal};
ghost use Rattle.log_merge.specs.Checking.{GoesOver, AccountFits, Passed, StopsIn};

use crate::checker::Checker;
use crate::fault::CheckFault;
use crate::totals::{shows_counts, shows_use};
use heap_model::{ApplyFault, Entry};
use reply_text::{History, SpaceMark};

impl Checker {
    /// That the next line isn't legal.
    fn illegal(&self) -> CheckFault
        ensures { result ≡ CheckFault.NotLegal self.now.line }
    {
        CheckFault::NotLegal { line: self.line }
    }

    fn pass_entry(&mut self, entry: &Entry) -> Result<(), CheckFault>
        requires few { self.old.line < 2 ^ 32 - 1 }
        requires ready { AccountFits self.old }
        requires seat { IsSeatBelow self.old.heap.seats entry.now }
        ensures passes { (form : Form) (passed : List HistoryLine) →
            OnOk result (GoesOver form self.old self.new passed (lines.Entry entry.now ∷ [])) }
        ensures stops { (form : Form) (passed : List HistoryLine) →
            IfErr result (StopsIn form self.old passed (lines.Entry entry.now ∷ [])) }
        ensures ready { OnOk result (AccountFits self.new) }
        ensures line { OnOk result (self.new.line ≡ self.old.line + 1) }
        ensures heap { self.new.heap ≡ self.old.heap }
    {
        match self.apply(entry) {
            Ok(()) => {
                self.line += 1;
                Ok(())
            }
            Err(ApplyFault::NotLegal) => Err(self.illegal()),
            Err(ApplyFault::Memory) => Err(CheckFault::Memory),
        }
    }

    fn pass_entries(&mut self, entries: &[Entry]) -> Result<(), CheckFault>
        requires few { self.old.line + length entries.now < 2 ^ 32 }
        requires ready { AccountFits self.old }
        requires seats { AllByRecursion (IsSeatBelow self.old.heap.seats) entries.now }
        ensures passes { (form : Form) (passed : List HistoryLine) →
            OnOk result (GoesOver form self.old self.new passed (map lines.Entry entries.now)) }
        ensures stops { (form : Form) (passed : List HistoryLine) →
            IfErr result (StopsIn form self.old passed (map lines.Entry entries.now)) }
        ensures ready { OnOk result (AccountFits self.new) }
        ensures line { OnOk result (self.new.line ≡ self.old.line + length entries.now) }
        ensures heap { self.new.heap ≡ self.old.heap }
    {
        for entry in entries {
            self.pass_entry(entry)?;
        }
        Ok(())
    }

    fn pass_space(&mut self, front: &[Entry], mark: SpaceMark) -> Result<(), CheckFault>
        requires few { length front.now < 2 ^ 30 }
        requires lines { self.old.line < 2 ^ 32 - 1 }
        requires ready { AccountFits self.old }
        ensures passes { (form : Form) (passed : List HistoryLine) → entries_of passed ≡ front.now →
            OnOk result (GoesOver form self.old self.new passed (space_line mark ∷ [])) }
        ensures stops { (form : Form) (passed : List HistoryLine) → entries_of passed ≡ front.now →
            IfErr result (StopsIn form self.old passed (space_line mark ∷ [])) }
        ensures ready { OnOk result (AccountFits self.new) }
        ensures line { OnOk result (self.new.line ≡ self.old.line + 1) }
        ensures heap { self.new.heap ≡ self.old.heap }
    {
        if !shows_counts(self.heap, front, mark) {
            return Err(self.illegal());
        }
        self.line += 1;
        Ok(())
    }

    /// Goes over the entries, from the first line on, and over the space line where it stands among them.
    fn pass_marked(&mut self, mark: Option<SpaceMark>, entries: &[Entry]) -> Result<(), CheckFault>
        requires first { self.old.line ≡ 3 }
        requires few { length entries.now < 2 ^ 30 }
        requires mark { ForSome mark (λ mark. mark.before ≤ length entries.now) }
        requires ready { AccountFits self.old }
        requires seats { AllByRecursion (IsSeatBelow self.old.heap.seats) entries.now }
        ensures passes { (form : Form) →
            OnOk result (GoesOver form self.old self.new [] (lines_with_mark mark entries.now)) }
        ensures stops { (form : Form) →
            IfErr result (StopsIn form self.old [] (lines_with_mark mark entries.now)) }
        ensures heap { self.new.heap ≡ self.old.heap }
    {
        let Some(mark) = mark else {
            return self.pass_entries(entries);
        };
        let (front, back) = entries.split_at(mark.before);
        self.pass_entries(front)?;
        self.pass_space(front, mark)?;
        self.pass_entries(back)
    }

    /// Goes over the end line, after the entries.
    fn pass_end(&self, entries: &[Entry], used: u64) -> Result<(), CheckFault>
        requires { length entries.now < 2 ^ 30 }
        ensures shows { OnOk result (ShowsUse self.now.heap entries.now used) }
        ensures stops { (form : Form) (passed : List HistoryLine) → entries_of passed ≡ entries.now →
            IfErr result (StopsIn form self.now passed (lines.End used ∷ [])) }
    {
        if !shows_use(self.heap, entries, used) {
            return Err(self.illegal());
        }
        Ok(())
    }

    /// Goes over all lines of the history, from the first on.
    pub fn pass_history(&mut self, history: &History) -> Result<(), CheckFault>
        requires value { IsSpellable history.now }
        requires heap { self.old.heap ≡ history.now.heap }
        requires first { Passed history.now.form self.old [] }
        requires ready { AccountFits self.old }
        ensures legal { OnOk result (IsLegalHistory history.now) }
        ensures first { (line : ℕ) → result ≡ Err (CheckFault.NotLegal line) →
            IsFirstIllegal history.now line }
    {
        let entries = history.entries.as_slice();
        self.pass_marked(history.mark, entries)?;
        self.pass_end(entries, history.end_used)
    }
}
