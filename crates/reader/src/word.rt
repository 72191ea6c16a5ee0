ghost use Rattle.reader.specs.Words.{text_in, place_in, kind_in, VerbRead, ValueRead};
ghost use Rattle.std.specs.Prelude.{◌≡◌, Some};

use crate::letters::read_permissions;
use crate::number::read_number;
use crate::place::Place;
use crate::verb::{Kind, Verb, named_verb};

// A word by what is expected at its place: a part of the script, with its place.
// Kept as it is: the words are an enum whose cases borrow the script, by a rule of the project.
#[derive(Clone, Copy, Debug, PartialEq, Eq)]
pub enum Word<'a> {
    Verb { text: &'a [u8], place: Place },
    Number { text: &'a [u8], place: Place },
    Permissions { text: &'a [u8], place: Place },
}

impl<'a> Word<'a> {
    // The word of an operand of a kind.
    pub(crate) fn operand(kind: Kind, text: &'a [u8], place: Place) -> Word<'a>
        ensures text { text_in result ≡ text.now }
        ensures place { place_in result ≡ place }
        ensures kind { kind_in result ≡ Some kind }
    {
        match kind {
            Kind::Number => Word::Number { text, place },
            Kind::Permissions => Word::Permissions { text, place },
        }
    }

    // The verb that it names, or its place.
    pub(crate) fn verb(self) -> Result<Verb, Place>
        ensures { VerbRead self.entry result }
    {
        match self {
            Word::Verb { text, place } => named_verb(text).ok_or(place),
            Word::Number { place, .. } | Word::Permissions { place, .. } => Err(place),
        }
    }

    // The number that it stands for, or its place.
    pub(crate) fn value(self) -> Result<u32, Place>
        ensures { ValueRead self.entry result }
    {
        match self {
            Word::Verb { place, .. } => Err(place),
            Word::Number { text, place } => read_number(text).ok_or(place),
            Word::Permissions { text, place } => read_permissions(text).ok_or(place),
        }
    }
}
