ghost use Rattle.script_crew.specs.CrewText.{IsJobLine, crew_header, crew_judge, job_words};

use crate::job_line::JobLine;
use heap_model::Heap;
use script_text::{Cause, CommandSet, Grammar, Parts, Preamble, read_below, read_command};

/// One more than the greatest number of a job.
pub const JOB_LIMIT: u16 = 4_096;

/// The grammar of a crew's texts: jobs' numbers stand where a script has seats.
pub struct CrewGrammar;

impl Grammar for CrewGrammar {
    type Line = JobLine;

    ghost judge = { λ _. crew_judge };

    ghost header = { λ _. crew_header };

    ghost line_words = { λ _. job_words };

    ghost may_follow = { λ _. IsJobLine };

    fn version_of(&self, first: &[u8]) -> Option<u8> {
        if first == b"crew 1".as_slice() {
            Some(2)
        } else {
            None
        }
    }

    fn takes(&self, _heap: &Heap) -> bool {
        true
    }

    fn read_front(&self, words: &mut Parts<'_>, _preamble: &Preamble) -> Result<JobLine, Cause> {
        let Some(word) = words.next() else {
            return Err(Cause::NoSeat);
        };
        let Some(job) = read_below(word, JOB_LIMIT) else {
            return Err(Cause::NoSeat);
        };
        let has = CommandSet {
            cas: true,
            collect: false,
        };
        let command = read_command(words, has)?;
        Ok(JobLine { job, command })
    }
}
