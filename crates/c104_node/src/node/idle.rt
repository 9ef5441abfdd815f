//! Whether nothing of a round can begin at a node.
ghost use Rattle.std.specs.Prelude.{true, ◌≡◌};
ghost use Rattle.c104_node.specs.{Idle.IsIdleNode, Records.has_link};
ghost use Rattle.c104_node.specs.declared.node.NodeOf.TheVariants as node;

use crate::node::NodeOf;
use crate::terminal::TerminalOf;
use c104_switch::{LinkSet, SwitchOf};
use c104_token::TokenKind;

impl<T: TokenKind> NodeOf<T> {
    /// Whether nothing of a round can begin at the node, whose wired links are these: so it stays until it does an act.
    pub fn is_idle(&self, wired: LinkSet) -> bool
        ensures { result ≡ true → IsIdleNode T.kind (has_link wired) self.now }
    {
        match self {
            NodeOf::Switch(switch) => is_idle_switch(switch, wired),
            NodeOf::Terminal(terminal) => is_idle_terminal(terminal, wired),
        }
    }
}

/// The same of a switch.
fn is_idle_switch<T: TokenKind>(switch: &SwitchOf<T>, wired: LinkSet) -> bool
    ensures { result ≡ true → IsIdleNode T.kind (has_link wired) (node.Switch switch.now) }
{
    let granting = switch.granting().next(0, wired);
    let leaving = switch.leaving().next(0, wired);
    let turning = switch.turning().next(0, wired);
    let wanting = switch.next_wanting(0);
    match (granting, leaving, turning, wanting) {
        (None, None, None, None) => true,
        _ => false,
    }
}

/// The same of a terminal. The links of a node that is one say nothing.
fn is_idle_terminal<T: TokenKind>(terminal: &TerminalOf<T>, _wired: LinkSet) -> bool
    ensures { result ≡ true → IsIdleNode T.kind (has_link _wired) (node.Terminal terminal.now) }
{
    if terminal.can_credit_out() {
        return false;
    }
    if terminal.can_leave() {
        return false;
    }
    !terminal.can_drain()
}
