ghost use Rattle.std.specs.Prelude.{◌≡◌, [], ◌∷◌, ◌++◌, Some, OnOk, IfErr};
ghost use Rattle.script_text.specs.declared.cause.ScriptFault.TheVariants as faults;
ghost use Rattle.script_text.specs.declared.preamble.Preamble.{Preamble};
ghost use Rattle.script_text.specs.declared.script.Form.{Form};
ghost use Rattle.reply_text.specs.read.Body.{IsBody, IsMisplaced, end_lines, lines_read};
ghost use Rattle.reply_text.specs.read.Stages.{after_line, first_stage};
ghost use Rattle.reply_text.specs.write.Lines.{IsHistoryLine};
ghost use Rattle.reply_text.specs.Written.{IsWritten};
ghost use Rattle.reply_text.specs.declared.history_line.HistoryLine.TheVariants as lines;

use crate::history::SpaceMark;
use crate::history_line::HistoryLine;
use crate::read::stage::Stage;
use heap_model::Entry;
use script_text::{Cause, Form, ScriptFault, Sequence};
use std::alloc::Global;

/// What was read of the lines after a heap line.
#[derive(Drop)]
pub struct Body {
    pub entries: Sequence<Entry>,
    pub mark: Option<SpaceMark>,
    /// Zero until the end line was read.
    pub end_used: u64,
    pub stage: Stage,
}

impl Body {
    /// Nothing was read yet.
    pub fn new(alloc: Global, form: Form) -> Body
        ensures empty { lines_read result ≡ [] }
        ensures stage { result.stage ≡ first_stage form }
        ensures range { (preamble : Preamble) → IsBody form preamble result }
    {
        let stage = match form {
            Form::Play => Stage::Unmarked,
            Form::Run => Stage::Marked,
        };
        Body {
            entries: Sequence::new(alloc),
            mark: None,
            end_used: 0,
            stage,
        }
    }

    /// Adds an entry.
    fn add_entry(&mut self, entry: Entry) -> Result<(), ScriptFault>
        requires { end_lines self.old.stage self.old.end_used ≡ [] }
        ensures found { (form : Form) (preamble : Preamble) → IsBody form preamble self.old →
            OnOk result (lines_read self.new ≡ lines_read self.old ++ lines.Entry entry ∷ []) }
        ensures range { (form : Form) (preamble : Preamble) → IsBody form preamble self.old →
            IsWritten form preamble entry → OnOk result (IsBody form preamble self.new) }
        ensures stage { self.new.stage ≡ self.old.stage }
        ensures fault { IfErr result (λ fault. fault ≡ faults.Memory) }
    {
        self.entries.push(entry)?;
        Ok(())
    }

    /// Adds the line of this number, if it may stand here.
    pub fn add(&mut self, line: HistoryLine, number: u32) -> Result<(), ScriptFault>
        ensures found { (form : Form) (preamble : Preamble) → IsBody form preamble self.old →
            OnOk result (lines_read self.new ≡ lines_read self.old ++ line ∷ []) }
        ensures range { (form : Form) (preamble : Preamble) → IsBody form preamble self.old →
            IsHistoryLine form preamble line → OnOk result (IsBody form preamble self.new) }
        ensures gives { OnOk result (after_line self.old.stage line ≡ Some self.new.stage) }
        ensures fault { IfErr result (IsMisplaced self.old.stage number line) }
    {
        match line {
            HistoryLine::Entry(entry) if self.stage != Stage::Ended => self.add_entry(entry),
            HistoryLine::Space {
                used,
                total,
                spine,
                budget,
            } if self.stage == Stage::Unmarked => {
                self.mark = Some(SpaceMark {
                    before: self.entries.as_slice().len(),
                    used,
                    total,
                    spine,
                    budget,
                });
                self.stage = Stage::Marked;
                Ok(())
            }
            HistoryLine::End(used) if self.stage == Stage::Marked => {
                self.end_used = used;
                self.stage = Stage::Ended;
                Ok(())
            }
            _ => Err(Cause::BadEntry.at(number).into()),
        }
    }
}
