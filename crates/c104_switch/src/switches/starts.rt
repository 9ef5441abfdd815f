//! A switch from its start, and the start of a switch.
ghost use Rattle.std.specs.Prelude.{◌≡◌, IfOk};
ghost use Rattle.c104_switch.specs.Starts.{start_switch, switch_start};

use super::SwitchOf;
use crate::inputs::InputsOf;
use crate::outputs::OutputsOf;
use crate::switch_start::SwitchStart;
use c104_token::{NoMemory, TokenKind};
use std::alloc::Global;

impl<T: TokenKind> SwitchOf<T> {
    /// The switch at a start. The only error is out of memory.
    pub fn from_start(alloc: Global, start: &SwitchStart) -> Result<Self, NoMemory>
        ensures { IfOk result (λ s. s ≡ start_switch start.now) }
    {
        let registers = Box::new(alloc, *start.registers())?;
        let outputs = OutputsOf::from_start(alloc, start.links())?;
        let inputs = InputsOf::from_start(alloc, start.links())?;
        Ok(SwitchOf {
            registers,
            inputs,
            outputs,
        })
    }

    /// Writes where the switch stands, but for its tokens, in place of another start. It takes no
    /// memory.
    pub fn write_start(&self, start: &mut SwitchStart)
        ensures { start.new ≡ switch_start self.now }
    {
        start.write(&self.registers, &self.inputs, &self.outputs);
    }
}
