// Denials by name, with their numbers, and the layers that they come from, with their letters.
#![tactic(auto)]

ghost use Rattle.denial.specs.Numbers.{number_of, letter_of};
ghost use Rattle.denial.specs.declared.Denial.{Denial};
ghost use Rattle.denial.specs.declared.Layer.{Layer};
ghost use Rattle.std.specs.Prelude.{◌≡◌};

// Why a call is denied. The numbers are those that are printed.
#[derive(Clone, Copy, Debug, PartialEq, Eq)]
pub enum Denial {
    BadNum = 1,
    Empty,
    Perm,
    Bounds,
    Align,
    NoCap,
    Revoked,
    NotWhole,
    Freed,
    QFull,
    Allowance,
    NoRun,
    Nothing,
    FullReg,
    Open,
    NoSweep,
    Idle,
    Text,
    Sizes,
}

impl Denial {
    // Kept as it is: `number` is the rules' word for it, and `u8::from` would say less.
    pub fn number(self) -> u8
        ensures { result ≡ number_of self }
    {
        self as u8
    }
}

// Which part of the runtime denied.
#[derive(Clone, Copy, Debug, PartialEq, Eq)]
pub enum Layer {
    Memory,
    Machine,
    Quarantine,
    Allocator,
    Reader,
}

impl Layer {
    // Kept as it is: a letter by name, since `char::from` would not say that it is the layer's letter.
    pub fn letter(self) -> char
        ensures { result ≡ letter_of self }
    {
        match self {
            Layer::Memory => 'T',
            Layer::Machine => 'M',
            Layer::Quarantine => 'Q',
            Layer::Allocator => 'A',
            Layer::Reader => 'R',
        }
    }
}

// Why a part of the runtime denies: which denial it is, and which part it comes from.
// Kept as methods, `code` too: denial and layer belong together, and `From<F> for Denial` would give the one without the other.
pub trait Fault: Copy {
    ghost denial_of: { Self → Denial };

    ghost layer_of: { Self → Layer };

    fn denial(self) -> Denial
        ensures { result ≡ denial_of self };

    fn layer(self) -> Layer
        ensures { result ≡ layer_of self };

    // The number of its denial.
    fn code(self) -> u8
        ensures { result ≡ number_of (denial_of self) }
    {
        self.denial().number()
    }
}
