ghost use Rattle.std.specs.Prelude.{Some};
ghost use Rattle.script.specs.Texts.{outcome_text};

use crate::fault::ScriptFault;
use std::fmt;

// What a line of a script comes to: an answer, or a fault.
#[derive(Clone, Copy, Debug, PartialEq, Eq)]
pub struct LineOutcome {
    pub line: usize,
    pub outcome: Result<u32, ScriptFault>,
}

// The line's number, 0, `-` and the answer of an accepted call; else the fault.
impl fmt::Display for LineOutcome {
    ghost output = { λ o. Some (outcome_text o) };

    fn fmt<W: fmt::Write>(&self, f: &mut fmt::Formatter<W>) -> fmt::Result {
        let line = self.line;
        match self.outcome {
            Ok(answer) => write!(f, "{line} 0 - {answer}"),
            Err(fault) => write!(f, "{fault}"),
        }
    }
}
