//! Whether two entries are the same.
ghost use Rattle.std.specs.Prelude.{◌≡◌, ◌↔◌, IsTrue};

use c104_control::ControlBytes;
use c104_node::{Act, Entry};
use c104_switch::{Action, ActionOf, Reply};
use c104_token::Token;

/// Whether both are the same token.
fn is_same_token(one: Token, other: Token) -> bool
    ensures { IsTrue result ↔ (one ≡ other) }
{
    one == other
}

/// Whether both are the same bytes.
fn is_same_bytes(one: &ControlBytes, other: &ControlBytes) -> bool
    ensures { IsTrue result ↔ (one.now ≡ other.now) }
{
    one.as_slice() == other.as_slice()
}

/// Whether both are the same reply.
pub fn is_same_reply(one: &Reply, other: &Reply) -> bool
    ensures { IsTrue result ↔ (one.now ≡ other.now) }
{
    match (one, other) {
        (Reply::Done, Reply::Done) => true,
        (Reply::NotReady, Reply::NotReady) => true,
        (Reply::Token(one), Reply::Token(other)) => is_same_token(*one, *other),
        (Reply::Control(one), Reply::Control(other)) => is_same_bytes(one, other),
        _ => false,
    }
}

/// Whether both are the same action.
pub fn is_same_action(one: &Action, other: &Action) -> bool
    ensures { IsTrue result ↔ (one.now ≡ other.now) }
{
    match (one, other) {
        (ActionOf::Enter(one, token), ActionOf::Enter(other, another)) => {
            *one == *other && is_same_token(*token, *another)
        }
        (ActionOf::Leave(one), ActionOf::Leave(other)) => *one == *other,
        (ActionOf::CreditOut(one), ActionOf::CreditOut(other)) => *one == *other,
        (ActionOf::CreditIn(one), ActionOf::CreditIn(other)) => *one == *other,
        (ActionOf::Input(one, word), ActionOf::Input(other, another)) => {
            *one == *other && *word == *another
        }
        (ActionOf::Claim(one, output), ActionOf::Claim(other, another)) => {
            *one == *other && *output == *another
        }
        (ActionOf::Control(one), ActionOf::Control(other)) => is_same_bytes(one, other),
        _ => false,
    }
}

/// Whether both are the same act.
pub fn is_same_act(one: &Act, other: &Act) -> bool
    ensures { IsTrue result ↔ (one.now ≡ other.now) }
{
    match (one, other) {
        (Act::Step(one), Act::Step(other)) => is_same_action(one, other),
        (Act::Send(one), Act::Send(other)) => one.packet().is_same(other.packet()),
        (Act::Drain, Act::Drain) => true,
        (Act::Leave, Act::Leave) => true,
        (Act::Enter(one), Act::Enter(other)) => is_same_token(*one, *other),
        (Act::CreditOut, Act::CreditOut) => true,
        (Act::CreditIn, Act::CreditIn) => true,
        _ => false,
    }
}

/// Whether both are the same entry.
pub fn is_same_entry(one: &Entry, other: &Entry) -> bool
    ensures { IsTrue result ↔ (one.now ≡ other.now) }
{
    one.ticket == other.ticket
        && one.seat == other.seat
        && is_same_act(&one.act, &other.act)
        && is_same_reply(&one.reply, &other.reply)
}
