//! A node of a network: a switch or a terminal.
ghost use Rattle.std.specs.{Option.{option_copied, option_to_list}, Prelude.{[], ◌∷◌, ◌≡◌}};
ghost use Rattle.c104_node.specs.Nodes.{node_arrived, node_peek, node_waiting, terminals_of};

mod acting;
mod idle;
mod limits;
pub mod quiet;
mod reasons;
pub mod starts;
mod tokens;
mod views;

use crate::terminal::{ArrivedOf, TerminalOf};
use c104_switch::SwitchOf;
use c104_token::TokenKind;

/// A node of a network.
pub enum NodeOf<T: TokenKind> {
    Switch(SwitchOf<T>),
    Terminal(TerminalOf<T>),
}

impl<T: TokenKind> NodeOf<T> {
    /// Retires a switch, or gives the terminal.
    pub fn retire(self) -> Option<TerminalOf<T>>
        ensures { option_to_list result ≡ terminals_of (self ∷ []) }
    {
        match self {
            NodeOf::Switch(switch) => {
                switch.retire();
                None
            }
            NodeOf::Terminal(terminal) => Some(terminal),
        }
    }

    /// The value of the register at this address. None where there is none, or the node is no
    /// switch.
    pub fn peek(&self, addr: u16) -> Option<u32>
        ensures { result ≡ node_peek addr self.now }
    {
        match self {
            NodeOf::Switch(switch) => switch.peek(addr).ok(),
            NodeOf::Terminal(_) => None,
        }
    }

    /// How many tokens wait to go out, if the node is a terminal.
    pub fn waiting(&self) -> Option<usize>
        ensures { result ≡ node_waiting self.now }
    {
        match self {
            NodeOf::Switch(_) => None,
            NodeOf::Terminal(terminal) => Some(terminal.waiting()),
        }
    }

    /// The tokens that arrived, if the node is a terminal.
    pub fn arrived(&self) -> Option<&ArrivedOf<T>>
        ensures { option_copied result ≡ node_arrived self.now }
    {
        match self {
            NodeOf::Switch(_) => None,
            NodeOf::Terminal(terminal) => Some(terminal.arrived()),
        }
    }
}
