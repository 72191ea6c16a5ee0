ghost use Rattle.std.specs.Prelude.{◌≡◌, ◌+◌, ◌*◌, ◌<◌, ◌≤◌, false, length, replicate, IfSome, if◌then◌else◌, Some};
ghost use Rattle.authority.specs.Capabilities.{capability_of};
ghost use Rattle.authority.specs.Images.{image_of};
ghost use Rattle.bits.specs.Bits.{bits_of};
ghost use Rattle.memory.specs.Flats.{GranulesOf, always_may, always_sure, flat_bounded, flat_bytes, flat_granules, flat_sized, flat_tags, sizes_checked, sizes_fit};
ghost use Rattle.memory.specs.Memories.{change_at, granule_at, reaching};
ghost use Rattle.std.proofs.Math.Seq.{paste};

use crate::fault::MemoryFault;
use crate::granule::{GRANULE_BYTES, Granule};
use crate::tagged_memory::TaggedMemory;
use authority::capability::Capability;
use authority::numbers::Numbers;

// Tagged memory over two lent buffers: 16 bytes of data for each granule, and its tag as one bit.
// Kept as it is: a number of granules and no Option, since by the rules there are 0 where the sizes of the buffers do not fit.
// Kept as it is: bytes and tags apart, since a caller lends exactly these two buffers, of these layouts.
#[derive(Drop)]
pub struct Flat<'a> {
    bytes: &'a mut [u8],
    tags: &'a mut [u8],
    granules: usize,
    ghost counted: { GranulesOf bytes.now tags.now granules },
}

// Writes 0 into each byte.
fn zero(bytes: &mut [u8])
    ensures { bytes.new ≡ replicate (length bytes.old) 0 }
{
    bytes.fill(0);
}

// Zeroes the bytes of n granules from g on.
fn zero_granules(bytes: &mut [u8], g: usize, n: usize)
    requires { 16 * (g + n) ≤ length bytes.old }
    ensures { bytes.new ≡ paste bytes.old (16 * g) (replicate (16 * n) 0) (16 * n) }
{
    zero(&mut bytes[GRANULE_BYTES * g..GRANULE_BYTES * (g + n)]);
}

// Stores the image of a capability at granule g.
fn put_image(bytes: &mut [u8], g: usize, capability: Capability)
    requires { 16 * g + 16 ≤ length bytes.old }
    ensures { bytes.new ≡ paste bytes.old (16 * g) (image_of capability) 16 }
{
    let image = capability.image();
    bytes[GRANULE_BYTES * g..GRANULE_BYTES * (g + 1)].copy_from_slice(&image);
}

// The capability of some numbers, if it ends within `size` bytes.
fn capability_within(size: usize, numbers: Numbers) -> Option<Capability>
    ensures answer { result ≡ reaching size (capability_of numbers.base numbers.top numbers.permissions) }
    ensures made { IfSome result (λ c. capability_of numbers.base numbers.top numbers.permissions ≡ Some c) }
{
    Capability::new(numbers).filter(|c| c.top() as usize <= size)
}

impl<'a> Flat<'a> {
    // The number of granules over two buffers, if their sizes fit.
    pub fn check_sizes(bytes: &[u8], tags: &[u8]) -> Result<usize, MemoryFault>
        ensures { result ≡ sizes_checked (length bytes.now) (length tags.now) }
    {
        bits::granules(tags.len())
            .filter(|g| bytes.len() == GRANULE_BYTES * *g)
            .ok_or(MemoryFault::Sizes)
    }

    // Kept beside next fit's `new`: the two zero their buffers or leave them, but their buffers and models differ.
    // A fresh memory over two buffers. Where the sizes do not fit it has no granules, and the buffers stay as they are.
    #[tactic(auto, using(bits::proofs::Masks::bits_zero))]
    pub fn new(bytes: &'a mut [u8], tags: &'a mut [u8]) -> Flat<'a>
        ensures bytes { result.bytes.now ≡ (if sizes_fit (length bytes.old) (length tags.old) then replicate (length bytes.old) 0 else bytes.old) }
        ensures tags { result.tags.now ≡ (if sizes_fit (length bytes.old) (length tags.old) then replicate (length tags.old) 0 else tags.old) }
        ensures bytes_lent { result.bytes.ghost_name ≡ bytes.entry.ghost_name }
        ensures tags_lent { result.tags.ghost_name ≡ tags.entry.ghost_name }
        ensures fresh_bytes { flat_bytes result.bytes.now result.tags.now ≡ replicate (16 * flat_granules (length bytes.old) (length tags.old)) 0 }
        ensures fresh_tags { flat_tags result.bytes.now result.tags.now ≡ replicate (flat_granules (length bytes.old) (length tags.old)) false }
    {
        let Ok(granules) = Flat::check_sizes(&*bytes, &*tags) else {
            return Flat {
                bytes,
                tags,
                granules: 0,
            };
        };
        zero(&mut *bytes);
        zero(&mut *tags);
        Flat {
            bytes,
            tags,
            granules,
        }
    }

    // Whether there is a granule g.
    fn check_granule(&self, g: usize) -> Result<(), MemoryFault>
        ensures { result ≡ change_at g self.now.granules }
    {
        if g < self.granules {
            Ok(())
        } else {
            Err(MemoryFault::Bounds)
        }
    }

    // What granule g holds.
    fn granule(&self, g: usize) -> Granule
        requires { g < self.now.granules }
        ensures { result ≡ granule_at self.now.bytes.now (bits_of self.now.tags.now) g }
    {
        Granule {
            tagged: bits::get(&*self.tags, g),
            numbers: Numbers::read(&self.bytes[GRANULE_BYTES * g..]),
        }
    }
}

impl<'a> TaggedMemory for Flat<'a> {
    ghost bytes = { λ m. flat_bytes m.bytes.now m.tags.now };

    ghost tags = { λ m. flat_tags m.bytes.now m.tags.now };

    ghost may = { always_may };

    ghost sized = { λ m. flat_sized m.bytes.now m.tags.now };

    ghost bounded = { λ m. flat_bounded m.bytes.now m.tags.now };

    ghost sure = { always_sure };

    fn granules(&self) -> usize {
        self.granules
    }

    fn may_hold(&self, g: usize) -> Result<bool, MemoryFault> {
        self.check_granule(g)?;
        Ok(true)
    }

    fn read_byte(&self, at: usize) -> Result<u8, MemoryFault> {
        self.check_granule(at / GRANULE_BYTES)?;
        Ok(self.bytes[at])
    }

    fn read_granule(&self, g: usize) -> Result<Granule, MemoryFault> {
        self.check_granule(g)?;
        Ok(self.granule(g))
    }

    fn store_byte(&mut self, at: usize, value: u8) -> Result<(), MemoryFault> {
        self.check_granule(at / GRANULE_BYTES)?;
        self.bytes[at] = value;
        bits::put(&mut *self.tags, at / GRANULE_BYTES, false);
        Ok(())
    }

    fn store_capability(&mut self, g: usize, numbers: Numbers) -> Result<(), MemoryFault> {
        self.check_granule(g)?;
        let size = GRANULE_BYTES * self.granules;
        let capability = capability_within(size, numbers).ok_or(MemoryFault::BadNum)?;
        put_image(&mut *self.bytes, g, capability);
        bits::put(&mut *self.tags, g, true);
        Ok(())
    }

    fn untag(&mut self, g: usize) -> Result<(), MemoryFault> {
        self.check_granule(g)?;
        bits::put(&mut *self.tags, g, false);
        Ok(())
    }

    fn wipe(&mut self, g: usize, n: usize) -> Result<(), MemoryFault> {
        self.check_granule(g)?;
        if n > self.granules - g {
            return Err(MemoryFault::Bounds);
        }
        zero_granules(&mut *self.bytes, g, n);
        bits::fill(&mut *self.tags, g, g + n, false);
        Ok(())
    }
}

#[cfg(test)]
mod tests {
    use super::*;
    use denial::Fault;

    #[test]
    fn most_granules_fit(rt: HostRuntime) {
        let (bytes, tags) = ([0u8; 16384], [0u8; 128]);
        assert_eq!(rt; Flat::check_sizes(&bytes, &tags), Ok(1024));
    }

    #[test]
    fn more_granules_do_not_fit(rt: HostRuntime) {
        let (bytes, tags) = ([0u8; 16640], [0u8; 130]);
        assert_eq!(rt;
            Flat::check_sizes(&bytes, &tags).map_err(|fault| fault.code()),
            Err(19)
        );
    }

    #[test]
    fn no_granules_over_wrong_sizes(rt: HostRuntime) {
        let (mut bytes, mut tags) = ([7u8; 256], [7u8; 3]);
        let memory = Flat::new(&mut bytes, &mut tags);
        assert_eq!(rt; memory.granules(), 0);
        assert!(rt; memory.bytes.len() == 256);
        let last = memory.bytes[255];
        assert_eq!(rt; last, 7);
    }

    #[test]
    fn a_byte_stored_over_a_capability_clears_its_tag(rt: HostRuntime) {
        let (mut bytes, mut tags) = ([7u8; 256], [7u8; 2]);
        let mut memory = Flat::new(&mut bytes, &mut tags);
        let numbers = Numbers {
            base: 3,
            top: 256,
            permissions: 31,
        };
        assert!(rt; memory.store_capability(15, numbers).is_ok());
        assert_eq!(rt;
            memory.read_granule(15),
            Ok(Granule {
                tagged: true,
                numbers
            })
        );
        assert!(rt; memory.store_byte(244, 9).is_ok());
        let over = Numbers {
            top: 265,
            ..numbers
        };
        assert_eq!(rt;
            memory.read_granule(15),
            Ok(Granule {
                tagged: false,
                numbers: over
            })
        );
    }
}
