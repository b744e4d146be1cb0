ghost use Rattle.std.specs.Prelude.{◌≡◌, ◌+◌, ◌≤◌, IfOk, OnOk, IsErrOf, vec_len};
ghost use Rattle.form_words.specs.Works.{most_bytes, HasInput};
ghost use Rattle.io_edge.specs.Left.{LosesNext};
ghost use Rattle.io_edge.specs.ReadAll.{CountsReadFault};
ghost use Rattle.schism_program.specs.Outcome.{IsRead, IsReadUpTo};

use form_words::Work;
use io_edge::{ReadAllFault, Source, read_all};
use std::alloc::Global;

/// The input of the work, which is empty where it has none: then nothing is read.
pub fn read_input<S: Source>(
    alloc: Global,
    work: Work,
    source: &mut S,
) -> Result<Vec<u8>, ReadAllFault>
    ensures read { IfOk result (λ input.
        IsRead work (S.left source.old) (S.left source.new) input.items) }
    ensures within { IfOk result (λ input. vec_len input ≤ most_bytes work) }
    ensures too_long { IsErrOf result ReadAllFault.TooLong →
        HasInput work × LosesNext (S.left source.old) (S.left source.new) (most_bytes work + 1) }
    ensures most { OnOk result (IsReadUpTo work (S.left source.old) (S.left source.new)) }
    ensures read_fault { IsErrOf result ReadAllFault.ReadFault →
        IsReadUpTo work (S.left source.old) (S.left source.new) }
    ensures memory { IsErrOf result ReadAllFault.Memory →
        IsReadUpTo work (S.left source.old) (S.left source.new) }
    ensures untouched { ¬ HasInput work → source.new ≡ source.old }
    ensures count { CountsReadFault result (S.faults source.old) (S.faults source.new) }
{
    let Some(most) = work.most_bytes() else {
        return Ok(Vec::new(alloc));
    };
    let input = read_all(alloc, source, most)?;
    Ok(input)
}
