//! Nodes from their starts.
ghost use Rattle.std.specs.Prelude.{IfOk, ◌≡◌};
ghost use Rattle.c104_node.specs.Starts.{start_node};

use crate::node::NodeOf;
use crate::starts::NodeStart;
use crate::terminal::TerminalOf;
use c104_switch::SwitchOf;
use c104_token::{NoMemory, TokenKind};
use std::alloc::Global;

impl<T: TokenKind> NodeOf<T> {
    /// The node at a start. The only error is out of memory.
    pub fn from_start(alloc: Global, start: &NodeStart) -> Result<Self, NoMemory>
        ensures { IfOk result (λ n. n ≡ start_node start.now) }
    {
        match start {
            NodeStart::Switch(start) => {
                let switch = SwitchOf::from_start(alloc, start)?;
                Ok(NodeOf::Switch(switch))
            }
            NodeStart::Terminal(start) => {
                let terminal = TerminalOf::from_start(alloc, start)?;
                Ok(NodeOf::Terminal(terminal))
            }
        }
    }
}
