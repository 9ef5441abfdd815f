//! Whether a node is quiet, and the start of a run there.
ghost use Rattle.std.specs.Prelude.{IsTrue, ◌↔◌, ◌≡◌};
ghost use Rattle.c104_node.specs.{Quiet.{IsQuietNode, IsQuietSwitch, is_quiet_view, node_begin}, Starts.{start_node, start_of}};
ghost use Rattle.c104_switch.specs.Views.{link_view};

use crate::node::NodeOf;
use c104_switch::{LINKS, Phase, SwitchOf};
use c104_token::TokenKind;

impl<T: TokenKind> NodeOf<T> {
    /// Whether no token stands at the node, and no packet is under way in it.
    pub fn is_quiet(&self) -> bool
        ensures { IsTrue result ↔ IsQuietNode self.now }
    {
        match self {
            NodeOf::Switch(switch) => is_quiet_switch(switch),
            NodeOf::Terminal(terminal) => terminal.is_quiet(),
        }
    }

    /// Begins a run where the node stands, if it is quiet: it forgets what was sent and what arrived, if it is a
    /// terminal. Then it stands at the start that it is at.
    #[tactic(auto, using(crate::proofs::BegunRecords::switch_stands, crate::proofs::BegunRecords::terminal_stands))]
    pub fn begin(&mut self)
        requires { IsQuietNode self.old }
        ensures begun { self.new ≡ node_begin self.old }
        ensures stands { self.new ≡ start_node (start_of self.old) }
    {
        match self {
            NodeOf::Switch(switch) => {
                // The proof reads by this name what every switch keeps.
                let _started = switch.started();
            }
            NodeOf::Terminal(terminal) => terminal.begin(),
        }
    }
}

/// Whether no token stands at a switch, and no packet is under way in it.
fn is_quiet_switch<T: TokenKind>(switch: &SwitchOf<T>) -> bool
    ensures { IsTrue result ↔ IsQuietSwitch switch.now }
{
    // The proof reads by this name how many links there are.
    let _started = switch.started();
    for link in 0..LINKS {
        if !is_quiet_link(switch, link) {
            return false;
        }
    }
    true
}

/// Whether no token is seen of a link, and no packet at its input.
fn is_quiet_link<T: TokenKind>(switch: &SwitchOf<T>, link: usize) -> bool
    ensures { result ≡ is_quiet_view (link_view T.kind switch.now link) }
{
    match switch.view(link) {
        Some(view) => {
            let is_fresh = matches!(view.phase, Phase::Fresh);
            view.input_level == 0 && (view.output_level == 0 && is_fresh)
        }
        None => true,
    }
}
