//! What a node does, and what is kept of it.
ghost use Rattle.std.specs.Prelude.{◌≡◌};

use crate::sent_packet::SentPacket;
use c104_control::ControlBytes;
use c104_switch::{ActionOf, Reply};
use c104_token::Token;

/// What a node does, over any kind of token: a switch an action, a terminal all the others.
#[derive(Drop)]
pub enum ActOf<T> {
    /// A switch does an action.
    Step(ActionOf<T>),
    /// A terminal sends a packet.
    Send(SentPacket),
    /// The first token that came in at a terminal arrives. Not ready where none came in.
    Drain,
    /// The first token that waits at a terminal goes out over its wire. Not ready without a token or
    /// without a credit.
    Leave,
    /// A token comes in at a terminal. Not ready where none is granted.
    Enter(T),
    /// A terminal grants eight more tokens to the other end of its wire. Not ready where its buffer
    /// hasn't room for all that would then be granted.
    CreditOut,
    /// The other end of a terminal's wire has granted eight more tokens. Not ready where the credit
    /// would then be above 64.
    CreditIn,
}

/// What a node of plain tokens does.
pub type Act = ActOf<Token>;

/// What is kept of an act that was done: an entry of the trace of its node.
// In this order of the fields an entry takes the fewest bytes.
#[derive(Drop)]
pub struct Entry {
    /// The place of the event among all that were done. At the two ends of a wire it is the same.
    pub ticket: u64,
    /// What the node did.
    pub act: Act,
    /// What it answered.
    pub reply: Reply,
    /// The seat of the one who asked for the event. None where there was none.
    pub seat: Option<u8>,
}

/// The same reply.
// Inlined: where the reply is known, its other cases go.
#[inline(always)]
pub fn same_reply(reply: &Reply) -> Reply
    ensures { result ≡ reply.now }
{
    match reply {
        Reply::Done => Reply::Done,
        Reply::NotReady => Reply::NotReady,
        Reply::Token(token) => Reply::Token(*token),
        Reply::Control(bytes) => Reply::Control(ControlBytes::new(bytes.as_slice())),
    }
}
