//! The registers of a switch.
//!
//! A peek and a poke are told the status of one link alone, that of the address: what the address reads, and whether it
//! may be set, depends on no other link. No status is kept in step with the state.
ghost use Rattle.std.specs.Prelude.{◌≡◌};
ghost use Rattle.c104_switch.specs.Peeks.{link_status, switch_peek};

use super::SwitchOf;
use c104_regs::{RegFault, Registers, Status};
use c104_token::TokenKind;

impl<T: TokenKind> SwitchOf<T> {
    /// The value of the register at this address. NoRegister where there is none.
    pub fn peek(&self, addr: u16) -> Result<u32, RegFault>
        ensures { result ≡ switch_peek self.now addr }
    {
        let status = self.status(Registers::link_of(addr));
        self.registers.peek_told(addr, &status)
    }

    /// What the switch tells of a link.
    #[tactic(auto, unfolding(crate::specs::Peeks::link_status))]
    pub(super) fn status(&self, link: usize) -> Status
        ensures { result ≡ link_status self.now link }
    {
        let (Some(input), Some(output)) = (self.inputs.get(link), self.outputs.get(link)) else {
            return Status::reset();
        };
        let owner = match self.inputs.owner(link) {
            Some(place) => Some(place as u8),
            None => None,
        };
        Status {
            sunk: input.sunk(),
            short: input.short(),
            input_level: input.level() as u8,
            output_level: output.len() as u8,
            credit: output.credit() as u8,
            granted: input.granted() as u8,
            owner,
            busy: input.is_busy() || self.inputs.is_owned(link),
        }
    }
}
