//! Which actions a switch is ready for.
ghost use Rattle.std.specs.Prelude.{is_some, ℕ, ◌≡◌};
ghost use Rattle.c104_switch.specs.{Claims.switch_claim, Switch.{switch_credit_in, switch_credit_out, switch_enter, switch_leave}};
ghost use Rattle.c104_switch.specs.Turns.{switch_input};

use super::SwitchOf;
use c104_token::TokenKind;

impl<T: TokenKind> SwitchOf<T> {
    /// Whether `enter` would take a token in.
    pub fn can_enter(&self, link: usize) -> bool
        ensures { (token : T) → result ≡ is_some (switch_enter self.now link token) }
    {
        self.inputs.can_accept(link)
    }

    /// Whether `leave` would give a token.
    pub fn can_leave(&self, link: usize) -> bool
        ensures { result ≡ is_some (switch_leave self.now link) }
    {
        self.outputs.can_leave(link)
    }

    /// Whether `credit_out` would grant.
    pub fn can_credit_out(&self, link: usize) -> bool
        ensures { result ≡ is_some (switch_credit_out self.now link) }
    {
        self.registers.started() && self.inputs.can_grant(link)
    }

    /// Whether `credit_in` would add the credit.
    pub fn can_credit_in(&self, link: usize) -> bool
        ensures { result ≡ is_some (switch_credit_in self.now link) }
    {
        self.outputs.can_be_credited(link)
    }

    /// Whether `input` would do something, which no word decides.
    #[inline(always)]
    pub fn can_input(&self, link: usize) -> bool
        ensures { (word : ℕ) → result ≡ is_some (switch_input T.kind self.now link word) }
    {
        match self.registers.all_settings().get(link) {
            Some(_) => self.registers.started() && self.inputs.can_turn(link, &self.outputs),
            None => false,
        }
    }

    /// Whether `claim` would claim the output.
    pub fn can_claim(&self, input: usize, output: usize) -> bool
        ensures { result ≡ is_some (switch_claim self.now input output) }
    {
        self.registers.started()
            && self
                .inputs
                .can_claim(input, &self.registers, output, &self.outputs)
    }
}
