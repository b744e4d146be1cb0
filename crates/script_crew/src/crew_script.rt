ghost use Rattle.std.specs.Prelude.{◌≡◌, None, IfOk, OnOk, IfErr};
ghost use Rattle.script_text.specs.Reading.{FailsBy, GivesOnly};
ghost use Rattle.script_crew.specs.CrewText.{IsCrewText, first_crew_fault};

use crate::crew_grammar::CrewGrammar;
use crate::job_line::JobLine;
use heap_model::Heap;
use script_text::{ScriptFault, Sequence, read_text};
use std::alloc::Global;

/// What a crew's text tells: the heap that it asks for, and the lines of its jobs.
#[derive(Debug, Drop)]
pub struct CrewScript {
    pub heap: Heap,
    pub lines: Sequence<JobLine>,
}

fn read(alloc: Global, text: &[u8]) -> Result<CrewScript, ScriptFault>
    ensures found { IfOk result (IsCrewText text.now) }
    ensures none { OnOk result (first_crew_fault text.now ≡ None) }
    ensures fault { IfErr result (FailsBy (first_crew_fault text.now)) }
{
    let (preamble, lines) = read_text(alloc, text, &CrewGrammar)?;
    Ok(CrewScript {
        heap: preamble.heap,
        lines,
    })
}

/// What the text tells, if it is a crew's.
pub fn read_crew(alloc: Global, text: &[u8]) -> Result<CrewScript, ScriptFault>
    ensures found { IfOk result (IsCrewText text.now) }
    ensures none { OnOk result (first_crew_fault text.now ≡ None) }
    ensures fault { IfErr result (FailsBy (first_crew_fault text.now)) }
    // It tells that alone, and a text with a fault is none of a crew.
    ensures only { GivesOnly (IsCrewText text.now) result }
{
    read(alloc, text)
}
