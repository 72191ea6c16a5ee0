ghost use Rattle.script.specs.Faults.{script_answer, script_denial, script_layer, script_line};
ghost use Rattle.script.specs.Faults.{unread};
ghost use Rattle.script.specs.Texts.{fault_text};
ghost use Rattle.script.specs.declared.fault.RunError.TheVariants.{Memory as MemoryCase};
ghost use Rattle.script.specs.declared.fault.ScriptFault.TheVariants.{Call as CallCase, Text as TextCase};
ghost use Rattle.std.specs.Prelude.{◌≡◌, Some};

use crate::fault::{LineFault, RunError, ScriptFault};
use denial::{Denial, Fault, Layer};
use reader::place::Place;
use reader::script::ReadError;
use std::alloc::AllocError;
use std::fmt;

impl Fault for ScriptFault {
    ghost denial_of = { script_denial };

    ghost layer_of = { script_layer };

    fn denial(self) -> Denial {
        match self {
            ScriptFault::Text(_) => Denial::Text,
            ScriptFault::Call(at) => at.fault.denial(),
        }
    }

    fn layer(self) -> Layer {
        match self {
            ScriptFault::Text(_) => Layer::Reader,
            ScriptFault::Call(at) => at.fault.layer(),
        }
    }
}

impl ScriptFault {
    pub fn line(self) -> usize
        ensures { result ≡ script_line self }
    {
        match self {
            ScriptFault::Text(place) => place.line,
            ScriptFault::Call(at) => at.line,
        }
    }

    // The word on TEXT, else 0.
    // Kept as it is: a number and no Option, since by the rules 0 is printed where there is no word.
    pub fn answer(self) -> usize
        ensures { result ≡ script_answer self }
    {
        match self {
            ScriptFault::Text(place) => place.word,
            ScriptFault::Call(_) => 0,
        }
    }
}

// The line's number, the denial's number, the layer's letter, and the word on TEXT, else 0.
impl fmt::Display for ScriptFault {
    ghost output = { λ f. Some (fault_text f) };

    fn fmt<W: fmt::Write>(&self, f: &mut fmt::Formatter<W>) -> fmt::Result {
        let line = self.line();
        let code = self.code();
        let letter = self.layer().letter();
        let answer = self.answer();
        write!(f, "{line} {code} {letter} {answer}")
    }
}

// Kept by hand, like the next three: a derived `From` has no contract, and the clause names the fault that `?` makes.
impl From<Place> for ScriptFault {
    ghost from_gives = { λ x y. y ≡ TextCase x };

    fn from(place: Place) -> ScriptFault {
        ScriptFault::Text(place)
    }
}

impl From<LineFault> for ScriptFault {
    ghost from_gives = { λ x y. y ≡ CallCase x };

    fn from(fault: LineFault) -> ScriptFault {
        ScriptFault::Call(fault)
    }
}

impl From<AllocError> for RunError {
    ghost from_gives = { λ x y. y ≡ MemoryCase x };

    fn from(error: AllocError) -> RunError {
        RunError::Memory(error)
    }
}

// A script that is too long is TEXT at line 0, word 0.
impl From<ReadError> for RunError {
    ghost from_gives = { λ x y. y ≡ unread x };

    fn from(error: ReadError) -> RunError {
        match error {
            ReadError::TooLong => RunError::Denied(ScriptFault::Text(Place { line: 0, word: 0 })),
            ReadError::Memory(error) => RunError::Memory(error),
        }
    }
}
