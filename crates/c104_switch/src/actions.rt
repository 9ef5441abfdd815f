//! What is asked of a switch, what it answers, and what can be seen of a link.

use crate::header::HeaderBytes;
use crate::phase::Phase;
use c104_control::ControlBytes;
use c104_token::Token;

/// What is asked of a switch, over any kind of token. Links, inputs and outputs have the numbers 0 to 31; an action on any
/// other is never ready.
#[derive(Debug, Drop, PartialEq, Eq)]
pub enum ActionOf<T> {
    /// A token comes in over this link's wire. Not ready where none is granted.
    Enter(usize, T),
    /// The first token of this link's output goes out over its wire. Not ready without a token or
    /// without a credit.
    Leave(usize),
    /// This link grants eight more tokens to the other end of its wire. Not ready before the start,
    /// or where its buffer hasn't room for all that would then be granted.
    CreditOut(usize),
    /// The other end of this link's wire has granted eight more tokens. Not ready where the credit
    /// would then be above 64.
    CreditIn(usize),
    /// This input takes a turn with its first token. The word picks a random header, where the
    /// input puts one before its packets. Not ready before the start, without a token, while the
    /// input wants an output, or where the output that it streams to is full.
    Input(usize, u32),
    /// This input claims this output, one of the group that it wants. Not ready before the start,
    /// where the input wants no group or another, where an input owns the output, or where the
    /// output hasn't room for the header and doesn't delete it.
    Claim(usize, usize),
    /// A control command comes, as these bytes. It is always ready.
    Control(ControlBytes),
}

/// What a switch answers, over any kind of token.
#[derive(Debug, Drop, PartialEq, Eq)]
pub enum ReplyOf<T> {
    /// It is done.
    Done,
    /// A condition of the action doesn't hold. Nothing has changed.
    NotReady,
    /// It is done, and this token went out.
    Token(T),
    /// The command was answered, by these bytes. Where they are a refusal, nothing has changed.
    Control(ControlBytes),
}

/// What is asked of a switch of plain tokens.
pub type Action = ActionOf<Token>;

/// What a switch of plain tokens answers.
pub type Reply = ReplyOf<Token>;

/// What can be seen of one link.
#[derive(Debug, Drop)]
pub struct LinkView {
    /// How many tokens the input buffer holds, 0 to 64.
    pub input_level: usize,
    /// How many tokens the output buffer holds, 0 to 8.
    pub output_level: usize,
    /// How many tokens the output may send, 0 to 64.
    pub credit: usize,
    /// How many more tokens may come in, 0 to 64.
    pub granted: usize,
    /// The input that streams to this output, 0 to 31, if one does.
    pub owner: Option<usize>,
    /// What the input does with its next token.
    pub phase: Phase<HeaderBytes>,
}
