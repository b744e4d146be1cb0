ghost use Rattle.std.specs.Prelude.{◌≡◌, ℕ, length, Err, IfOk};
ghost use Rattle.reply_text.specs.History.{IsSpellable};
ghost use Rattle.log_merge.specs.Legal.{IsLegalHistory};
ghost use Rattle.log_merge.specs.Lines.{IsFirstIllegal};

use crate::checker::Checker;
use crate::fault::CheckFault;
use reply_text::History;
use std::alloc::Global;

/// The number of entries of the history, where it is legal.
pub fn check(alloc: Global, history: &History) -> Result<u64, CheckFault>
    requires { IsSpellable history.now }
    ensures count { IfOk result (λ count. count ≡ length history.now.entries) }
    ensures legal { IfOk result (λ _. IsLegalHistory history.now) }
    ensures first { (line : ℕ) → result ≡ Err (CheckFault.NotLegal line) →
        IsFirstIllegal history.now line }
    ensures not_legal { (line : ℕ) → result ≡ Err (CheckFault.NotLegal line) →
        ¬ IsLegalHistory history.now }
{
    let mut checker = Checker::new(alloc, history.form, history.heap)?;
    checker.pass_history(history)?;
    Ok(history.entries.as_slice().len() as u64)
}
