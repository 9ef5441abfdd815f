//! The step of a switch.
ghost use Rattle.std.specs.Prelude.{◌≡◌};
ghost use Rattle.c104_switch.specs.Actions.{switch_step, done_reply, token_reply};

use crate::actions::{ActionOf, ReplyOf};
use crate::switches::SwitchOf;
use c104_token::TokenKind;

impl<T: TokenKind> SwitchOf<T> {
    /// Does an action, and answers Done or the token that went out; or answers NotReady, and
    /// changes nothing, where a condition of the action doesn't hold.
    pub fn step(&mut self, action: ActionOf<T>) -> ReplyOf<T>
        ensures { (result, self.new) ≡ switch_step T.kind self.old action }
    {
        self.act(&action)
    }

    /// The same, of an action that is kept.
    // Inlined: where the action is known, its other cases go.
    #[inline(always)]
    pub fn act(&mut self, action: &ActionOf<T>) -> ReplyOf<T>
        ensures { (result, self.new) ≡ switch_step T.kind self.old action.now }
    {
        match action {
            ActionOf::Enter(link, token) => done(self.enter(*link, *token)),
            ActionOf::Leave(link) => gave(self.leave(*link)),
            ActionOf::CreditOut(link) => done(self.credit_out(*link)),
            ActionOf::CreditIn(link) => done(self.credit_in(*link)),
            ActionOf::Input(link, word) => done(self.input(*link, *word)),
            ActionOf::Claim(input, output) => done(self.claim(*input, *output)),
            ActionOf::Control(bytes) => ReplyOf::Control(self.control(bytes.as_slice())),
        }
    }
}

fn done<T: TokenKind>(made: bool) -> ReplyOf<T>
    ensures { result ≡ done_reply made }
{
    if made {
        ReplyOf::Done
    } else {
        ReplyOf::NotReady
    }
}

fn gave<T: TokenKind>(token: Option<T>) -> ReplyOf<T>
    ensures { result ≡ token_reply token }
{
    match token {
        Some(token) => ReplyOf::Token(token),
        None => ReplyOf::NotReady,
    }
}
