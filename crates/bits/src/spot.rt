ghost use Rattle.std.specs.Prelude.{◌≡◌, ◌/◌, ◌%◌, ◌<◌};
ghost use Rattle.bits.specs.Bits.{bit, BitPut};

// Where a place lies: its byte, and its bit in that byte, the lowest first.
#[derive(Clone, Copy, Debug, PartialEq, Eq)]
pub(crate) struct Spot {
    pub(crate) byte: usize,
    pub(crate) shift: usize,
    ghost within: { shift < 8 },
}

impl Spot {
    // The spot of place g.
    // Kept by name: `From` would not say that the number is a place.
    pub(crate) fn of(g: usize) -> Spot
        ensures byte { result.byte ≡ g / 8 }
        ensures shift { result.shift ≡ g % 8 }
    {
        Spot {
            byte: g / 8,
            shift: g % 8,
        }
    }

    // Whether the bit is set in a byte.
    pub(crate) fn is_set(self, byte: u8) -> bool
        ensures { result ≡ bit byte self.shift }
    {
        (byte >> self.shift) % 2 == 1
    }

    // A byte with the bit set to `on`: the bit itself, and no flag.
    #[tactic(auto, using(crate::proofs::Masks::put_on, crate::proofs::Masks::put_off))]
    pub(crate) fn with(self, byte: u8, on: bool) -> u8
        ensures { BitPut byte result self.shift on }
    {
        let mask = 1u8 << self.shift;
        if on { byte | mask } else { byte & !mask }
    }
}
