ghost use Rattle.std.specs.Prelude.{◌≡◌, ℕ, ◌*◌, ◌/◌, ◌≤◌, Bool, true, false, List, length, replicate, is_ok, if◌then◌else◌, slice_index_or, slice_set};
ghost use Rattle.authority.specs.Capabilities.{capability_of};
ghost use Rattle.memory.specs.Memories.{byte_read, capability_stored, change_at, granule_read, may_answer, most_granules, reaching, wipe_answer, with_image};
ghost use Rattle.std.proofs.Math.Seq.{paste};

use crate::fault::MemoryFault;
use crate::granule::Granule;
use authority::numbers::Numbers;

// A memory of 16-byte granules, each with a tag. Its model is the list of bytes and the list of tags.
// Kept as it is: the clause `denied` of each change, since it relates the memory before to the memory after, which no
// ghost field does.
pub trait TaggedMemory {
    ghost bytes: { Self → List ℕ };

    ghost tags: { Self → List Bool };

    // May a granule hold a capability? The kind's own rule, on the tags alone.
    ghost may: { List Bool → ℕ → Bool };

    fn granules(&self) -> usize
        ensures count { result ≡ length (tags self.now) }
        ensures few { result ≤ most_granules };

    fn may_hold(&self, g: usize) -> Result<bool, MemoryFault>
        ensures { result ≡ may_answer may (tags self.now) g };

    fn read_byte(&self, at: usize) -> Result<u8, MemoryFault>
        ensures { result ≡ byte_read (bytes self.now) at };

    fn read_granule(&self, g: usize) -> Result<Granule, MemoryFault>
        ensures { result ≡ granule_read (bytes self.now) (tags self.now) g };

    // Stores a byte, and clears its granule's tag.
    fn store_byte(&mut self, at: usize, value: u8) -> Result<(), MemoryFault>
        ensures answer { result ≡ change_at at (length (bytes self.old)) }
        ensures bytes { bytes self.new ≡ slice_set (bytes self.old) at value }
        ensures tags { tags self.new ≡ slice_set (tags self.old) (at / 16) false }
        ensures denied { is_ok result ≡ false → self.new ≡ self.old };

    // Stores the image of the capability of some numbers, and sets the tag. Any numbers are taken: BADNUM if they make none.
    fn store_capability(&mut self, g: usize, numbers: Numbers) -> Result<(), MemoryFault>
        ensures answer { result ≡ capability_stored (bytes self.old) (tags self.old) g numbers.base numbers.top numbers.permissions }
        ensures bytes { bytes self.new ≡ (if is_ok result then with_image (bytes self.old) g (capability_of numbers.base numbers.top numbers.permissions) else bytes self.old) }
        ensures tags { tags self.new ≡ (if is_ok result then slice_set (tags self.old) g true else tags self.old) }
        ensures denied { is_ok result ≡ false → self.new ≡ self.old };

    // Clears a tag, and leaves the bytes.
    fn untag(&mut self, g: usize) -> Result<(), MemoryFault>
        ensures answer { result ≡ change_at g (length (tags self.old)) }
        ensures bytes { bytes self.new ≡ bytes self.old }
        ensures tags { tags self.new ≡ slice_set (tags self.old) g false }
        ensures denied { is_ok result ≡ false → self.new ≡ self.old };

    // Zeroes the bytes of n granules from g on, and clears their tags.
    fn wipe(&mut self, g: usize, n: usize) -> Result<(), MemoryFault>
        ensures answer { result ≡ wipe_answer g n (length (tags self.old)) }
        ensures bytes { bytes self.new ≡ (if is_ok result then paste (bytes self.old) (16 * g) (replicate (16 * n) 0) (16 * n) else bytes self.old) }
        ensures tags { tags self.new ≡ (if is_ok result then paste (tags self.old) g (replicate n false) n else tags self.old) }
        ensures denied { is_ok result ≡ false → self.new ≡ self.old };

    // Every granule has 16 bytes.
    ghost sized: { (m : Self) → length (bytes m) ≡ 16 * length (tags m) };

    // There are at most 1,024 granules.
    ghost bounded: { (m : Self) → length (tags m) ≤ most_granules };

    // The kind's rule says no only at an untagged granule.
    ghost sure: { (ts : List Bool) (g : ℕ) → may ts g ≡ false → slice_index_or ts g false ≡ false };
}
