//! Why a node isn't ready.
ghost use Rattle.std.specs.Prelude.{◌≡◌};
ghost use Rattle.c104_node.specs.NodeReasons.{node_enter_why, node_leave_why, node_credit_out_why, node_credit_in_why};
ghost use Rattle.c104_node.specs.NodeReasons.{node_input_why, node_claim_why, node_drain_why};

use crate::node::NodeOf;
use c104_switch::Unready;
use c104_token::TokenKind;

impl<T: TokenKind> NodeOf<T> {
    /// Why no token can come in over a link's wire.
    pub fn why_enter(&self, link: usize) -> Option<Unready>
        ensures { result ≡ node_enter_why link self.now }
    {
        match self {
            NodeOf::Switch(switch) => switch.why_enter(link),
            NodeOf::Terminal(terminal) => terminal.why_enter(),
        }
    }

    /// Why no token can go out over a link's wire.
    pub fn why_leave(&self, link: usize) -> Option<Unready>
        ensures { result ≡ node_leave_why link self.now }
    {
        match self {
            NodeOf::Switch(switch) => switch.why_leave(link),
            NodeOf::Terminal(terminal) => terminal.why_leave(),
        }
    }

    /// Why a link can't grant eight more tokens.
    pub fn why_credit_out(&self, link: usize) -> Option<Unready>
        ensures { result ≡ node_credit_out_why link self.now }
    {
        match self {
            NodeOf::Switch(switch) => switch.why_credit_out(link),
            NodeOf::Terminal(terminal) => terminal.why_credit_out(),
        }
    }

    /// Why a link may not be granted eight more tokens.
    pub fn why_credit_in(&self, link: usize) -> Option<Unready>
        ensures { result ≡ node_credit_in_why link self.now }
    {
        match self {
            NodeOf::Switch(switch) => switch.why_credit_in(link),
            NodeOf::Terminal(terminal) => terminal.why_credit_in(),
        }
    }

    /// Why an input can't take a turn.
    pub fn why_input(&self, link: usize) -> Option<Unready>
        ensures { result ≡ node_input_why link self.now }
    {
        match self {
            NodeOf::Switch(switch) => switch.why_input(link),
            NodeOf::Terminal(_) => Some(Unready::NoLink),
        }
    }

    /// Why an input can't claim an output.
    pub fn why_claim(&self, input: usize, output: usize) -> Option<Unready>
        ensures { result ≡ node_claim_why input output self.now }
    {
        match self {
            NodeOf::Switch(switch) => switch.why_claim(input, output),
            NodeOf::Terminal(_) => Some(Unready::NoLink),
        }
    }

    /// Why no token can arrive.
    pub fn why_drain(&self) -> Option<Unready>
        ensures { result ≡ node_drain_why self.now }
    {
        match self {
            NodeOf::Switch(_) => Some(Unready::NoLink),
            NodeOf::Terminal(terminal) => terminal.why_drain(),
        }
    }
}
