//! Texts that are read a line at a time.
ghost use Rattle.std.specs.Prelude.{◌≡◌, Some, None, Ok, Err, IfErr, OnOk};
ghost use Rattle.script.specs.Faults.{IsFaultOf};
ghost use Rattle.script.specs.FirstBadLine.{after_lines};
ghost use Rattle.script.specs.Parts.{lines_of};

use crate::fault::{LineFault, ScriptFault};
use crate::lines;
use std::alloc::Global;

/// What the lines of a text make, each adding to what those before it made.
pub(crate) trait FromLines {
    ghost use Rattle.std.specs.Prelude.{ℕ, List, Option};

    // What the lines so far made, as definitions see it.
    ghost Value: { Type 0 };

    ghost value_of: { Self → Value };

    // What one more line makes of it, where the line is good.
    ghost after_line: { Value → List ℕ → Option Value };

    /// Adds what one more line says.
    fn read_line(&mut self, alloc: Global, line: &[u8]) -> Result<(), LineFault>
        ensures read { OnOk result (after_line (value_of self.old) line.now
            ≡ Some (value_of self.new)) }
        ensures bad { result ≡ Err LineFault.Bad →
            after_line (value_of self.old) line.now ≡ None };
}

/// Adds what the lines of a text say, up to the first bad one.
pub(crate) fn read_lines<S: FromLines>(
    alloc: Global,
    script: &mut S,
    text: &[u8],
) -> Result<(), ScriptFault>
    ensures read { OnOk result (after_lines S.after_line 1 (S.value_of script.old)
        (lines_of text.now) ≡ Ok (S.value_of script.new)) }
    ensures bad_line { IfErr result (IsFaultOf
        (after_lines S.after_line 1 (S.value_of script.old) (lines_of text.now))) }
{
    let mut number = 0;
    for line in lines(text) {
        number += 1;
        match script.read_line(alloc, line) {
            Ok(()) => {}
            Err(LineFault::Bad) => return Err(ScriptFault::BadLine(number)),
            Err(LineFault::NoMemory) => return Err(ScriptFault::NoMemory),
        }
    }
    Ok(())
}
