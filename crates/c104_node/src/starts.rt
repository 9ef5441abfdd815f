//! Where the nodes of a run start: nodes at which no token stands, over any kind of token.
//!
//! A start holds its registers, so that what is set stays in range, a switch over any kind of token is made from it, and
//! another start is written in its place without memory.
ghost use Rattle.std.specs.Prelude.{◌↔◌, All, IsTrue};
ghost use Rattle.c104_node.specs.Starts.{IsStartedStart};

mod copies;
mod numbers;

use crate::terminal::TerminalStart;
use c104_switch::SwitchStart;

/// Where a node starts.
#[derive(Drop)]
pub enum NodeStart {
    Switch(SwitchStart),
    Terminal(TerminalStart),
}

impl NodeStart {
    /// Whether the node is started here: a terminal always is.
    pub fn is_started(&self) -> bool
        ensures { IsTrue result ↔ IsStartedStart self.now }
    {
        match self {
            NodeStart::Switch(switch) => {
                // The proof reads by this name what every start of a switch keeps.
                let _links = switch.links();
                switch.registers().started()
            }
            NodeStart::Terminal(terminal) => {
                // The same of a terminal's.
                let _cap = terminal.cap();
                true
            }
        }
    }
}

/// Whether each switch among these is started.
pub fn all_started(starts: &[NodeStart]) -> bool
    ensures { IsTrue result ↔ All IsStartedStart starts.now }
{
    for start in starts {
        if !start.is_started() {
            return false;
        }
    }
    true
}
