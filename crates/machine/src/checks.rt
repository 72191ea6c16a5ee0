ghost use Rattle.std.specs.Prelude.{◌≡◌, ◌+◌, if◌then◌else◌, Ok, Err, nat_lt};
ghost use Rattle.authority.specs.Capabilities.{base_of, permissions_of};
ghost use Rattle.authority.specs.Masks.{allows};
ghost use Rattle.machine.specs.Answers.{granule_answer, length_of};
ghost use Rattle.machine.specs.declared.fault.MachineFault.TheVariants.{Bounds, Perm};

use crate::fault::MachineFault;
use crate::operand::Operand;
use authority::capability::Capability;
use authority::permission::Permission;

// Denied unless a capability has a permission.
pub(crate) fn check_permission(held: Capability, permission: Permission) -> Result<(), MachineFault>
    ensures { result ≡ (if allows (permissions_of held) permission then Ok tt else Err Perm) }
{
    if !held.permissions().allows(permission) {
        return Err(MachineFault::Perm);
    }
    Ok(())
}

// The address of the byte at an offset of a capability: it has to lie within.
pub(crate) fn byte_at(held: Capability, offset: Operand) -> Result<usize, MachineFault>
    ensures { result ≡ (if nat_lt offset.value (length_of held) then Ok (base_of held + offset.value) else Err Bounds) }
{
    if offset.value >= held.length() {
        return Err(MachineFault::Bounds);
    }
    Ok((held.base() + offset.value) as usize)
}

// The granule at an offset of a capability: it has to lie within, and to begin there.
pub(crate) fn granule_at(held: Capability, offset: Operand) -> Result<usize, MachineFault>
    ensures { result ≡ granule_answer held offset.value }
{
    if offset.value + 16 > held.length() {
        return Err(MachineFault::Bounds);
    }
    let at = held.base() + offset.value;
    if at % 16 != 0 {
        return Err(MachineFault::Align);
    }
    Ok((at / 16) as usize)
}
