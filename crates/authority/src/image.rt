ghost use Rattle.std.specs.Prelude.{◌≡◌, ◌+◌, slice_index};
ghost use Rattle.authority.specs.Images.{ImageReadsBack, image_of, read_image, word_at};

use crate::capability::Capability;
use crate::numbers::Numbers;

// The byte k places after another; 0 past the end.
// Kept as it is: an Option would be no plainer, since each caller would put in the 0 that `word_at` promises for bytes past
// the end.
fn byte_after(bytes: &[u8], at: usize, k: usize) -> u8
    ensures { result ≡ slice_index bytes.now (at + k) }
{
    at.checked_add(k)
        .and_then(|i| bytes.get(i).copied())
        .unwrap_or(0)
}

// The number in the four bytes from a place on, low byte first; bytes past the end count as 0.
pub fn word_at(bytes: &[u8], at: usize) -> u32
    ensures { result ≡ word_at bytes.now at }
{
    u32::from_le_bytes([0, 1, 2, 3].map(|k| byte_after(bytes, at, k)))
}

impl Numbers {
    // The numbers at the places of an image; bytes past the end count as 0.
    pub fn read(image: &[u8]) -> Numbers
        ensures base { result.base ≡ word_at image.now 0 }
        ensures top { result.top ≡ word_at image.now 4 }
        ensures permissions { result.permissions ≡ slice_index image.now 8 }
    {
        Numbers {
            base: word_at(image, 0),
            top: word_at(image, 4),
            permissions: u32::from(byte_after(image, 8, 0)),
        }
    }
}

impl Capability {
    // Kept as they are: an array and an Option by name, since `capability.image()` says what the bytes are, and `From` and
    // `TryFrom` would not.
    // Base in four bytes, low byte first, top likewise, the permission number, seven zero bytes.
    pub fn image(self) -> [u8; 16]
        ensures { result ≡ image_of self }
    {
        let [b0, b1, b2, b3] = self.base().to_le_bytes();
        let [t0, t1, t2, t3] = self.top().to_le_bytes();
        let p = self.permissions().bits;
        [b0, b1, b2, b3, t0, t1, t2, t3, p, 0, 0, 0, 0, 0, 0, 0]
    }

    // The capability of the numbers at the image's places, if they are one; an image gives its capability back.
    pub fn from_image(image: &[u8; 16]) -> Option<Capability>
        ensures value { result ≡ read_image image.now }
        ensures back { ImageReadsBack }
    {
        Capability::new(Numbers::read(image))
    }
}
