//! The tokens that wait in a node, and what a terminal sent.
ghost use Rattle.std.specs.{Option.option_copied, Prelude.◌≡◌};
ghost use Rattle.c104_node.specs.Views.{node_input_token, node_next_token, node_output_token, node_sent_packet};

use crate::node::NodeOf;
use c104_token::{Packet, TokenKind};

impl<T: TokenKind> NodeOf<T> {
    /// The token that would go out next over a link. None where none can.
    #[tactic(auto, using(crate::proofs::NextTokens::switch_none, crate::proofs::NextTokens::switch_first, crate::proofs::NextTokens::terminal_none, crate::proofs::NextTokens::terminal_first))]
    pub fn next_token(&self, link: usize) -> Option<T>
        ensures { result ≡ node_next_token link self.now }
    {
        match self {
            NodeOf::Switch(switch) => {
                if switch.can_leave(link) {
                    switch.output_token(link, 0)
                } else {
                    None
                }
            }
            NodeOf::Terminal(terminal) => {
                if terminal.can_leave() {
                    terminal.first_waiting()
                } else {
                    None
                }
            }
        }
    }

    /// The token at this index of what came in over a link. A terminal has one link.
    pub fn input_token(&self, link: usize, index: usize) -> Option<T>
        ensures { result ≡ node_input_token link index self.now }
    {
        match self {
            NodeOf::Switch(switch) => switch.input_token(link, index),
            NodeOf::Terminal(terminal) => terminal.input_token(index),
        }
    }

    /// The token at this index of a link's output, if the node is a switch.
    pub fn output_token(&self, link: usize, index: usize) -> Option<T>
        ensures { result ≡ node_output_token link index self.now }
    {
        match self {
            NodeOf::Switch(switch) => switch.output_token(link, index),
            NodeOf::Terminal(_) => None,
        }
    }

    /// The packet of this number among those that were sent, if the node is a terminal.
    pub fn sent_packet(&self, number: usize) -> Option<&Packet>
        ensures { option_copied result ≡ node_sent_packet number self.now }
    {
        match self {
            NodeOf::Switch(_) => None,
            NodeOf::Terminal(terminal) => terminal.sent_packet(number),
        }
    }
}
