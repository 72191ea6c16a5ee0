// Bit buffers over lent bytes: bit g % 8 of byte g / 8 stands for place g.
#![tactic(auto)]

ghost use Rattle.std.specs.Prelude.{◌≡◌, ◌*◌, ◌%◌, ◌==◌, ◌&&◌, false, nat_le, slice_index_or, slice_set, if◌then◌else◌, Some, None};
ghost use Rattle.bits.specs.Bits.{bits_of, filled};

use spot::Spot;

mod spot;

// Whether the places below `end` lie in `bytes` bytes.
fn has_room(bytes: usize, end: usize) -> bool
    ensures { result ≡ nat_le end (8 * bytes) }
{
    end.div_ceil(8) <= bytes
}

// The places of a bitmap of granules, if its bytes stand for a multiple of 16 from 16 to 1,024.
pub fn granules(bytes: usize) -> Option<usize>
    ensures { result ≡ (if bytes % 2 == 0 && (nat_le 2 bytes && nat_le bytes 128) then Some (8 * bytes) else None) }
{
    (bytes % 2 == 0 && bytes >= 2 && bytes <= 128).then(|| 8 * bytes)
}

// The bit at place g; false past the end.
#[tactic(auto, using(crate::specs::Bits::length_bits, crate::proofs::Masks::get_d_bits, std::proofs::lemmas::List::get_or_past))]
pub fn get(bits: &[u8], g: usize) -> bool
    ensures { result ≡ slice_index_or (bits_of bits.now) g false }
{
    let spot = Spot::of(g);
    bits.get(spot.byte).is_some_and(|byte| spot.is_set(*byte))
}

// Sets the bit at place g to `on`; past the end nothing changes.
// By its index, since `get_mut` promises nothing of the slice after the write.
#[tactic(auto, using(crate::specs::Bits::length_bits, crate::proofs::Masks::bits_put, std::proofs::lemmas::List::set_past))]
pub fn put(bits: &mut [u8], g: usize, on: bool)
    ensures { bits_of bits.new ≡ slice_set (bits_of bits.old) g on }
{
    let spot = Spot::of(g);
    if spot.byte < bits.len() {
        bits[spot.byte] = spot.with(bits[spot.byte], on);
    }
}

// Sets the bits from place `from` up to `end` to `on`; nothing changes where `end` lies past the last.
// Kept as it is: a `for` over the places, since bits are no elements of a slice.
#[tactic(auto, using(crate::specs::Bits::length_bits, crate::proofs::Masks::fill_next))]
pub fn fill(bits: &mut [u8], from: usize, end: usize, on: bool)
    ensures { bits_of bits.new ≡ filled (bits_of bits.old) from end on }
{
    if has_room(bits.len(), end) {
        for g in from..end {
            put(bits, g, on);
        }
    }
}
