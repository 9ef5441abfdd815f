//! What crosses a wire, and the acts at its two ports.
ghost use Rattle.std.specs.Prelude.{is_some, ◌≡◌};
ghost use Rattle.c104_node.specs.{Acts.node_act, PortActs.{IsAnswerOf, far_act, near_act}};
ghost use Rattle.c104_switch.specs.declared.actions.ReplyOf.{ReplyOf as TheReply};

use crate::acts::ActOf;
use crate::node::NodeOf;
use c104_event::Port;
use c104_switch::{ActionOf, ReplyOf};
use c104_token::TokenKind;

/// What crosses a wire: a token, or a grant of eight.
#[derive(Clone, Copy, Debug, PartialEq, Eq)]
pub enum Crossing {
    Token,
    Grant,
}

/// Something that crosses a wire: what, the port from which it goes, and the other.
#[derive(Clone, Copy)]
pub struct Joint {
    pub near: Port,
    pub far: Port,
    pub crossing: Crossing,
}

/// The act at the port from which something crosses.
#[inline(always)]
pub fn near_act<T: TokenKind>(crossing: Crossing, port: Port) -> ActOf<T>
    ensures { result ≡ near_act crossing port }
{
    match (crossing, port) {
        (Crossing::Token, Port::Switch(_, link)) => ActOf::Step(ActionOf::Leave(link)),
        (Crossing::Token, Port::Terminal(_)) => ActOf::Leave,
        (Crossing::Grant, Port::Switch(_, link)) => ActOf::Step(ActionOf::CreditOut(link)),
        (Crossing::Grant, Port::Terminal(_)) => ActOf::CreditOut,
    }
}

/// The act at the other port, by what the first one answered.
// By what crosses and what was answered: so the compiler knows the act where it knows what crosses.
#[inline(always)]
pub fn far_act<T: TokenKind>(crossing: Crossing, port: Port, told: &ReplyOf<T>) -> ActOf<T>
    requires { IsAnswerOf crossing told.now }
    ensures { result ≡ far_act port told.now }
{
    match (crossing, told) {
        (Crossing::Token, ReplyOf::Token(token)) => match port {
            Port::Switch(_, link) => ActOf::Step(ActionOf::Enter(link, *token)),
            Port::Terminal(_) => ActOf::Enter(*token),
        },
        (Crossing::Grant, ReplyOf::Done) => match port {
            Port::Switch(_, link) => ActOf::Step(ActionOf::CreditIn(link)),
            Port::Terminal(_) => ActOf::CreditIn,
        },
        _ => unreachable!(),
    }
}

/// Whether a node would do the act at the port from which something crosses.
#[inline(always)]
pub fn can_near<T: TokenKind>(node: &NodeOf<T>, crossing: Crossing, port: Port) -> bool
    ensures { result ≡ is_some (node_act T.kind 0 (near_act crossing port) node.now) }
{
    match (node, port) {
        (NodeOf::Switch(switch), Port::Switch(_, link)) => match crossing {
            Crossing::Token => switch.can_leave(link),
            Crossing::Grant => switch.can_credit_out(link),
        },
        (NodeOf::Terminal(terminal), Port::Terminal(_)) => match crossing {
            Crossing::Token => terminal.can_leave(),
            Crossing::Grant => terminal.can_credit_out(),
        },
        _ => false,
    }
}

/// Whether a node would do the act at the other port, whatever token crosses.
#[inline(always)]
pub fn can_far<T: TokenKind>(node: &NodeOf<T>, crossing: Crossing, port: Port) -> bool
    ensures { (reply : TheReply T) → IsAnswerOf crossing reply →
        result ≡ is_some (node_act T.kind 0 (far_act port reply) node.now) }
{
    match (node, port) {
        (NodeOf::Switch(switch), Port::Switch(_, link)) => match crossing {
            Crossing::Token => switch.can_enter(link),
            Crossing::Grant => switch.can_credit_in(link),
        },
        (NodeOf::Terminal(terminal), Port::Terminal(_)) => match crossing {
            Crossing::Token => terminal.can_enter(),
            Crossing::Grant => terminal.can_credit_in(),
        },
        _ => false,
    }
}
