ghost use Rattle.call.specs.declared.Call.{Call as TheCall};
ghost use Rattle.reader.specs.Calls.{kinds_of, name_of, operands_of, verb_of};
ghost use Rattle.reader.specs.Steps.{NamesVerb};
ghost use Rattle.std.specs.Prelude.{◌≡◌, length, take, Decides};

use call::Call;

// The verbs that a line can begin with.
#[derive(Clone, Copy, Debug, PartialEq, Eq)]
pub enum Verb {
    Grant,
    Derive,
    Getb,
    Putb,
    Putc,
    Getc,
    Give,
    Drop,
}

// What an operand is written as.
#[derive(Clone, Copy, Debug, PartialEq, Eq)]
pub enum Kind {
    Number,
    Permissions,
}

// Every verb.
const VERBS: [Verb; 8] = [
    Verb::Grant,
    Verb::Derive,
    Verb::Getb,
    Verb::Putb,
    Verb::Putc,
    Verb::Getc,
    Verb::Give,
    Verb::Drop,
];

impl Verb {
    // The word that names a verb.
    // Kept as it is: bytes by name, since a script is bytes and `Display` would give text.
    fn name(self) -> &'static [u8]
        ensures { result.now ≡ name_of self }
    {
        match self {
            Verb::Grant => b"grant",
            Verb::Derive => b"derive",
            Verb::Getb => b"getb",
            Verb::Putb => b"putb",
            Verb::Putc => b"putc",
            Verb::Getc => b"getc",
            Verb::Give => b"give",
            Verb::Drop => b"drop",
        }
    }

    // Whether a word names a verb.
    fn is_named(self, text: &[u8]) -> bool
        ensures { Decides result (text.now ≡ name_of self) }
    {
        text == self.name()
    }

    // What its operands are written as.
    pub(crate) fn kinds(self) -> &'static [Kind]
        ensures { result.now ≡ kinds_of self }
    {
        use Kind::{Number, Permissions};
        match self {
            Verb::Drop => &[Number, Number],
            Verb::Grant | Verb::Getb => &[Number, Number, Number],
            Verb::Putb | Verb::Putc | Verb::Getc | Verb::Give => &[Number, Number, Number, Number],
            Verb::Derive => &[Number, Number, Number, Number, Number, Permissions],
        }
    }

    // The call of a verb with its operands.
    // Kept as it is: a `match`, since each kind of call has operands of its own.
    pub(crate) fn call(self, operands: &[u32; 6]) -> Call
        ensures verb { verb_of result ≡ self }
        ensures operands { operands_of result ≡ take (length (kinds_of self)) operands.now }
    {
        let [compartment, register, third, fourth, fifth, sixth] = *operands;
        match self {
            Verb::Grant => Call::Grant {
                compartment,
                register,
                granules: third,
            },
            Verb::Derive => Call::Derive {
                compartment,
                register,
                source: third,
                offset: fourth,
                length: fifth,
                permissions: sixth,
            },
            Verb::Getb => Call::Getb {
                compartment,
                register,
                offset: third,
            },
            Verb::Putb => Call::Putb {
                compartment,
                register,
                offset: third,
                value: fourth,
            },
            Verb::Putc => Call::Putc {
                compartment,
                register,
                offset: third,
                source: fourth,
            },
            Verb::Getc => Call::Getc {
                compartment,
                register,
                offset: third,
                target: fourth,
            },
            Verb::Give => Call::Give {
                compartment,
                register,
                recipient: third,
                target: fourth,
            },
            Verb::Drop => Call::Drop {
                compartment,
                register,
            },
        }
    }
}

// The verb that a word names.
pub(crate) fn named_verb(text: &[u8]) -> Option<Verb>
    ensures { NamesVerb text.now result }
{
    VERBS.iter().copied().find(|verb| verb.is_named(text))
}
