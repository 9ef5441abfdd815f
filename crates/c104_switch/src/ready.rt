//! Whether a switch is ready for an action.
ghost use Rattle.std.specs.Prelude.{◌≡◌};
ghost use Rattle.c104_switch.specs.Actions.{switch_step, is_ready};

use crate::actions::ActionOf;
use crate::switches::SwitchOf;
use c104_token::TokenKind;

impl<T: TokenKind> SwitchOf<T> {
    /// Whether `step` would do this action: false exactly where it would answer NotReady.
    #[inline(always)]
    pub fn ready(&self, action: &ActionOf<T>) -> bool
        ensures { result ≡ is_ready (switch_step T.kind self.now action.now).0 }
    {
        match action {
            ActionOf::Enter(link, _) => self.can_enter(*link),
            ActionOf::Leave(link) => self.can_leave(*link),
            ActionOf::CreditOut(link) => self.can_credit_out(*link),
            ActionOf::CreditIn(link) => self.can_credit_in(*link),
            ActionOf::Input(link, _) => self.can_input(*link),
            ActionOf::Claim(input, output) => self.can_claim(*input, *output),
            ActionOf::Control(_) => true,
        }
    }
}
