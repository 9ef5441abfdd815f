//! What commands change in a switch.
ghost use Rattle.std.specs.Prelude.{◌≡◌};
ghost use Rattle.c104_switch.specs.Commands.{switch_poke, switch_reset, switch_start};

use super::SwitchOf;
use c104_regs::{RegFault, Registers};
use c104_token::TokenKind;

impl<T: TokenKind> SwitchOf<T> {
    /// Discards all tokens and all packets under way, gives all claims back, and sets all registers
    /// to their first values. The switch isn't started then. What its links granted and may send
    /// stays, since the other ends of their wires count on it.
    pub(crate) fn reset(&mut self)
        ensures { self.new ≡ switch_reset self.old }
    {
        *self.registers = Registers::new();
        self.inputs.reset();
        self.outputs.clear();
    }

    /// From now on the switch grants tokens, and moves them from its inputs to its outputs.
    pub(crate) fn start(&mut self)
        ensures { self.new ≡ switch_start self.old }
    {
        self.registers.set_started(true);
    }

    /// Sets the register at this address. What is refused changes nothing: NoRegister where there
    /// is none, ReadOnly, OutOfRange, or Busy where a link's mode is set while a packet is on its
    /// way through its input or its output has an owner.
    pub(crate) fn poke(&mut self, addr: u16, value: u32) -> Result<(), RegFault>
        ensures { (result, self.new) ≡ switch_poke self.old addr value }
    {
        let status = self.status(Registers::link_of(addr));
        self.registers.poke_told(addr, value, &status)
    }
}
