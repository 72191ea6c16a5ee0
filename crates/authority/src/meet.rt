ghost use Rattle.authority.specs.BoundsMeet.{meet_bounds};
ghost use Rattle.authority.specs.PermissionsMeet.{meet_permissions};
ghost use Rattle.std.specs.Prelude.{◌≡◌};
ghost use Rattle.authority.specs.Meets.{bounds_assoc, bounds_comm, bounds_self, permissions_assoc, permissions_comm, permissions_self};
ghost use Rattle.std.proofs.Common.{rules};

use crate::bounds::Bounds;
use crate::permissions::Permissions;

// A kind of authority. One authority lies within another exactly when their meet is the first.
pub trait MeetSemilattice: Copy {
    ghost met: { Self → Self → Self };

    fn meet(self, other: Self) -> Self
        ensures { result ≡ met self other };

    ghost associative: { (x y z : Self) → met (met x y) z ≡ met x (met y z) };

    ghost commutative: { (x y : Self) → met x y ≡ met y x };

    ghost idempotent: { (x : Self) → met x x ≡ x };
}

// What is held, narrowed to what is wanted: the largest authority that lies within both.
pub fn derive<K: MeetSemilattice>(held: K, wanted: K) -> K
    ensures value { result ≡ K.MeetSemilattice.met held wanted }
    ensures within_held { K.MeetSemilattice.met result held ≡ result }
    ensures within_wanted { K.MeetSemilattice.met result wanted ≡ result }
    ensures largest { (x : K) → K.MeetSemilattice.met x held ≡ x → K.MeetSemilattice.met x wanted ≡ x → K.MeetSemilattice.met x result ≡ x }
{
    held.meet(wanted)
}

impl MeetSemilattice for Bounds {
    ghost met = { meet_bounds };

    ghost associative = { bounds_assoc };

    ghost commutative = { bounds_comm };

    ghost idempotent = { bounds_self };

    #[tactic(auto, using(crate::specs::BoundsMeet::same_bounds), unfolding(crate::specs::BoundsMeet::meet_bounds, crate::specs::BoundsMeet::bounds_between))]
    fn meet(self, other: Bounds) -> Bounds {
        Bounds::between(self.base().max(other.base()), self.top().min(other.top()))
    }
}

impl MeetSemilattice for Permissions {
    ghost met = { meet_permissions };

    ghost associative = { permissions_assoc };

    ghost commutative = { permissions_comm };

    ghost idempotent = { permissions_self };

    #[tactic(auto, using(crate::specs::PermissionsMeet::same_permissions), unfolding(crate::specs::PermissionsMeet::meet_permissions))]
    fn meet(self, other: Permissions) -> Permissions {
        Permissions {
            bits: self.bits & other.bits,
        }
    }
}

// Two kinds of authority side by side.
#[derive(Clone, Copy, Debug, PartialEq, Eq)]
pub struct Pair<F: MeetSemilattice, S: MeetSemilattice> {
    pub first: F,
    pub second: S,
}

impl<F: MeetSemilattice, S: MeetSemilattice> MeetSemilattice for Pair<F, S> {
    ghost met = { λ x y. record { first = F.MeetSemilattice.met x.first y.first; second = S.MeetSemilattice.met x.second y.second } };

    ghost associative = { Prim.search rules };

    ghost commutative = { Prim.search rules };

    ghost idempotent = { Prim.search rules };

    fn meet(self, other: Pair<F, S>) -> Pair<F, S> {
        Pair {
            first: self.first.meet(other.first),
            second: self.second.meet(other.second),
        }
    }
}
