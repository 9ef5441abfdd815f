//! What can be seen of a node.
ghost use Rattle.std.specs.Prelude.{◌≡◌};
ghost use Rattle.c104_node.specs.Views.{node_link_view, node_terminal_view};

use crate::node::NodeOf;
use crate::terminal::TerminalView;
use c104_switch::LinkView;
use c104_token::TokenKind;

impl<T: TokenKind> NodeOf<T> {
    /// What can be seen of a link. None where there is none, or the node is no switch.
    pub fn view_link(&self, link: usize) -> Option<LinkView>
        ensures { result ≡ node_link_view T.kind link self.now }
    {
        match self {
            NodeOf::Switch(switch) => switch.view(link),
            NodeOf::Terminal(_) => None,
        }
    }

    /// What can be seen of the node, if it is a terminal.
    pub fn view_terminal(&self) -> Option<TerminalView>
        ensures { result ≡ node_terminal_view self.now }
    {
        match self {
            NodeOf::Switch(_) => None,
            NodeOf::Terminal(terminal) => Some(terminal.view()),
        }
    }
}
