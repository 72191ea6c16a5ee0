ghost use Rattle.std.specs.Prelude.{◌≡◌, ◌≤◌};
ghost use Rattle.authority.specs.Masks.{all_permissions, allows as is_allowed};

use crate::permission::Permission;

// The number of all permissions.
pub const ALL_PERMISSIONS: u32 = 31;

// A set of permissions: r (load) 1, w (store) 2, c (load or store capabilities) 4, g (give) 8, o (own) 16.
#[derive(Clone, Copy, Debug, PartialEq, Eq)]
pub struct Permissions {
    pub(crate) bits: u8,
    ghost known: { bits ≤ all_permissions },
}

impl Permissions {
    ghost use Rattle.authority.specs.PermissionsMeet.{permissions_from};

    // The permissions of a number, if there are such.
    // Kept as it is: an Option, since one caller passes None on and the other has a denial of its own, and `TryFrom` asks for an error type.
    #[tactic(auto, using(crate::proofs::Making::permissions_none))]
    pub fn from_number(number: u32) -> Option<Permissions>
        ensures { result ≡ permissions_from number }
    {
        if number > ALL_PERMISSIONS {
            return None;
        }
        // Kept: a cast, since the test above it has bounded the number.
        Some(Permissions { bits: number as u8 })
    }

    // Kept as it is: `number` is the rules' word for it, and `u32::from` would say less.
    pub fn number(self) -> u32
        ensures { result ≡ self.bits }
    {
        u32::from(self.bits)
    }

    pub fn allows(self, permission: Permission) -> bool
        ensures { result ≡ is_allowed self.bits permission }
    {
        self.bits & permission as u8 != 0
    }
}
