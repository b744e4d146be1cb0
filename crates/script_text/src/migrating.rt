ghost use Rattle.std.specs.Prelude.{◌≡◌, ℕ, List};
ghost use Rattle.script_text.specs.declared.script.Form.{Form};
ghost use Rattle.script_text.specs.Grammar.{IsScript};
ghost use Rattle.script_text.specs.Migration.{MigratesScript, migrated_script};
ghost use Rattle.script_text.specs.Writing.{IsOfForm};

use crate::script::Script;

/// The script in version 2. No memory is taken.
pub fn migrate_script(mut script: Script) -> Script
    ensures value { result ≡ migrated_script script }
    ensures form { (form : Form) → IsOfForm form script → IsOfForm form result }
    // What is written of it is the script's text in version 2, and reads as it.
    ensures migrates { (form : Form) (text : List ℕ) → IsScript form text script →
        MigratesScript form text script }
{
    script.version = 2;
    script
}
