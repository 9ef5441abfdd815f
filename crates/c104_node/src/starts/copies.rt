//! Copies of where nodes start.
ghost use Rattle.std.specs.Prelude.{◌≡◌, IfOk};

use super::NodeStart;
use c104_link::TOKENS_OF_A_GRANT;
use c104_switch::{SwitchOf, SwitchStart};
use c104_token::{NoMemory, Token};
use std::alloc::Global;

impl NodeStart {
    /// A copy of the start. The only error is out of memory.
    pub fn copy(&self, alloc: Global) -> Result<Self, NoMemory>
        ensures { IfOk result (λ start. start ≡ self.now) }
    {
        match self {
            NodeStart::Switch(start) => {
                let copy = copy_switch(alloc, start)?;
                Ok(NodeStart::Switch(copy))
            }
            NodeStart::Terminal(start) => Ok(NodeStart::Terminal(start.same())),
        }
    }
}

/// A copy of where a switch starts, which a switch that stands there writes. The only error is out of memory.
fn copy_switch(alloc: Global, start: &SwitchStart) -> Result<SwitchStart, NoMemory>
    ensures { IfOk result (λ copy. copy ≡ start.now) }
{
    let mut copy = SwitchStart::new(alloc, TOKENS_OF_A_GRANT)?;
    let switch: SwitchOf<Token> = SwitchOf::from_start(alloc, start)?;
    switch.write_start(&mut copy);
    switch.retire();
    Ok(copy)
}
