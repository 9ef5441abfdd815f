//! Groups of links.
ghost use Rattle.std.specs.Prelude.{IfNone, IfSome, false, nat_le, ℕ, ◌&&◌, ◌<◌, ◌≡◌};
ghost use Rattle.{c104_regs.specs.declared.registers.TheConstants.LINKS, c104_switch.specs.Group.is_in_group};

use crate::LINKS;
use c104_crossbar::Group;
use c104_regs::Registers;

/// The group of this link. None past the last link, where no output is in one.
pub fn group_of(registers: &Registers, link: u8) -> Option<Group>
    ensures members { IfSome result (λ group. (o : ℕ) →
        is_in_group registers.now.settings link o ≡ (nat_le group.first o && nat_le o group.last)) }
    ensures below { IfSome result (λ group. group.last < LINKS) }
    ensures none { IfNone result ((o : ℕ) → o < LINKS →
        is_in_group registers.now.settings link o ≡ false) }
{
    let link = usize::from(link);
    let continues = registers.continues();
    if link >= LINKS {
        return None;
    }
    Some(Group::of(continues, link))
}

/// Whether an output is in the group of this link. Past the last link there is no group that has
/// one.
pub fn is_in_group(registers: &Registers, link: u8, output: usize) -> bool
    requires { output < LINKS }
    ensures { result ≡ is_in_group registers.now.settings link output }
{
    match group_of(registers, link) {
        Some(group) => group.contains(output),
        None => false,
    }
}
