//! Which links of a switch may be ready, and the next one. Those that are left out aren't, and none of them is asked.
ghost use Rattle.std.specs.Prelude.{None, false, is_some, unwrap_or, ℕ, ◌<◌, ◌≡◌, ◌≤◌};
ghost use Rattle.{c104_crossbar.specs.Groups.has_bit, c104_regs.specs.declared.registers.TheConstants.LINKS};
ghost use Rattle.c104_switch.specs.{Claims.{IsNextLink, is_wanting, switch_claim}, Readiness.may_turn_at, Switch.switch_credit_out};
ghost use Rattle.c104_switch.specs.{Switch.switch_leave, Turns.switch_input};

use super::SwitchOf;
use crate::link_set::LinkSet;
use c104_token::TokenKind;

impl<T: TokenKind> SwitchOf<T> {
    /// The links that can grant eight more tokens.
    #[inline(always)]
    pub fn granting(&self) -> LinkSet
        ensures { (l : ℕ) → l < LINKS → has_bit result l ≡ is_some (switch_credit_out self.now l) }
    {
        if !self.registers.started() {
            return LinkSet::new();
        }
        self.inputs.granting()
    }

    /// The links over which a token can go out.
    #[inline(always)]
    pub fn leaving(&self) -> LinkSet
        ensures { (l : ℕ) → l < LINKS → has_bit result l ≡ is_some (switch_leave self.now l) }
    {
        self.outputs.sending()
    }

    /// The links whose input has a token and doesn't want an output. No other can take a turn.
    #[inline(always)]
    pub fn turning(&self) -> LinkSet
        ensures may { (l : ℕ) → l < LINKS → has_bit result l ≡ may_turn_at self.now.inputs l }
        ensures others { (l word : ℕ) → l < LINKS → has_bit result l ≡ false →
            switch_input T.kind self.now l word ≡ None }
    {
        self.inputs.turning()
    }

    /// The next input, from that of this link on, that wants an output. None where no further one
    /// does. An input that is passed over claims no output.
    pub fn next_wanting(&self, from: usize) -> Option<usize>
        ensures next { IsNextLink (is_wanting self.now.inputs) from result }
        ensures passed { (input output : ℕ) → from ≤ input → input < unwrap_or result LINKS →
            switch_claim self.now input output ≡ None }
    {
        self.inputs.next_wanting(from)
    }

    /// The next output, from this one on, that an input can claim. None where it can claim no further
    /// one.
    pub fn next_claim(&self, input: usize, from: usize) -> Option<usize>
        ensures { IsNextLink (λ output. is_some (switch_claim self.now input output)) from result }
    {
        if !self.registers.started() {
            return None;
        }
        self.inputs
            .next_claim(input, &self.registers, from, &self.outputs)
    }
}
