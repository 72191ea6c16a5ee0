ghost use Rattle.std.specs.Prelude.{◌≡◌, ◌-◌, ◌<◌, ◌≤◌};
ghost use Rattle.authority.specs.Spans.{most_bytes};

use crate::bounds::Bounds;
use crate::meet::{Pair, derive};
use crate::numbers::Numbers;
use crate::permissions::Permissions;

// The bytes of the largest memory, and so the largest top of a capability.
pub const MAX_TOP: u32 = 16384;

// What a capability allows: where, and what.
pub type Authority = Pair<Bounds, Permissions>;

// An authority whose bounds are not empty and reach at most the last address of the largest memory.
#[derive(Clone, Copy, Debug, PartialEq, Eq)]
pub struct Capability {
    authority: Authority,
    ghost nonempty: { authority.first.base < authority.first.top },
    ghost reach: { authority.first.top ≤ most_bytes },
}

impl Capability {
    ghost use Rattle.authority.specs.Capabilities.{capability_of, capability_over, meet_authority, numbers_of};

    // The capability over an authority; none if its bounds are empty, or reach past the largest memory.
    #[tactic(auto, using(crate::proofs::Making::capability_empty, crate::proofs::Making::capability_past))]
    pub fn over(authority: Authority) -> Option<Capability>
        ensures { result ≡ capability_over authority }
    {
        if authority.first.is_empty() || authority.first.top() > MAX_TOP {
            return None;
        }
        Some(Capability { authority })
    }

    // Kept as they are, `new` and `numbers`: `TryFrom` would ask for an error type where the callers want an Option, and `From`
    // would say less than the name.
    // The capability of some numbers; none unless base is below top and the third is a permission number.
    pub fn new(numbers: Numbers) -> Option<Capability>
        ensures { result ≡ capability_of numbers.base numbers.top numbers.permissions }
    {
        let second = Permissions::from_number(numbers.permissions)?;
        Capability::over(Pair {
            first: Bounds::between(numbers.base, numbers.top),
            second,
        })
    }

    // Its numbers. They make the capability again.
    pub fn numbers(self) -> Numbers
        ensures { result ≡ numbers_of self }
    {
        Numbers {
            base: self.base(),
            top: self.top(),
            permissions: self.permissions().number(),
        }
    }

    // The capability narrowed to what is wanted; none if its bounds become empty.
    pub fn derive(self, wanted: Authority) -> Option<Capability>
        ensures { result ≡ capability_over (meet_authority self.authority wanted) }
    {
        Capability::over(derive(self.authority, wanted))
    }

    pub fn authority(self) -> Authority
        ensures { result ≡ self.authority }
    {
        self.authority
    }

    pub fn base(self) -> u32
        ensures { result ≡ self.authority.first.base }
    {
        self.authority.first.base()
    }

    pub fn top(self) -> u32
        ensures { result ≡ self.authority.first.top }
    {
        self.authority.first.top()
    }

    pub fn permissions(self) -> Permissions
        ensures { result ≡ self.authority.second }
    {
        self.authority.second
    }

    // The number of bytes within the bounds.
    pub fn length(self) -> u32
        ensures { result ≡ self.authority.first.top - self.authority.first.base }
    {
        self.top() - self.base()
    }
}
