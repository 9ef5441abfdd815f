//! An input's claim of an output.
ghost use Rattle.std.specs.Prelude.{IfNone, IfSome, List, None, Some, false, is_none, is_some, nat_le, option_to_list, ℕ, ◌&&◌, ◌++◌, ◌<◌};
ghost use Rattle.std.specs.Prelude.{◌∷◌, ◌≡◌};
ghost use Rattle.{c104_link.specs.{Buffers.Outgoing, Steps.bool_outcome}, c104_regs.specs.declared.registers.TheConstants.LINKS};
ghost use Rattle.c104_switch.specs.{Claims.{IsClaim, input_claim, put_own}, Holding.phase_claims};

use super::InputOf;
use super::stage::Stage;
use crate::group::{group_of, is_in_group};
use crate::outputs::OutputsOf;
use c104_crossbar::{Claim, Group};
use c104_regs::Registers;
use c104_token::TokenKind;

impl<T: TokenKind> InputOf<T> {
    /// Gives the header to the claimed output, if it is one of the group that the input wants, and
    /// streams to it from now on. Where that can't be, the claim comes back and nothing changes.
    pub fn claim(
        &mut self,
        registers: &Registers,
        claim: Claim,
        outputs: &mut OutputsOf<T>,
    ) -> Option<Claim>
        ensures claimed { IsClaim registers.now.settings claim
            self.old outputs.old (is_none result) self.new outputs.new }
        ensures claims { option_to_list result ++ phase_claims self.new.phase ≡
            claim ∷ phase_claims self.old.phase }
    {
        let Stage::Want(link) = self.stage else {
            return Some(claim);
        };
        let output = claim.output();
        if !is_in_group(registers, link, output)
            || !put_own(registers, output, self.header.as_slice(), outputs)
        {
            return Some(claim);
        }
        self.stage.set(Stage::Stream(claim));
        None
    }

    /// The group of outputs one of which the input wants. It claims no other output, and none where
    /// there is no such group.
    pub fn wanted_group(&self, registers: &Registers) -> Option<Group>
        ensures others { IfSome result (λ group. (qs : List (Outgoing T)) (o : ℕ) →
            (nat_le group.first o && nat_le o group.last) ≡ false →
            input_claim registers.now.settings self.now qs o self.now.phase ≡ None) }
        ensures below { IfSome result (λ group. group.last < LINKS) }
        ensures none { IfNone result ((qs : List (Outgoing T)) (o : ℕ) → o < LINKS →
            input_claim registers.now.settings self.now qs o self.now.phase ≡ None) }
    {
        let Stage::Want(link) = self.stage else {
            return None;
        };
        group_of(registers, link)
    }

    /// Whether `claim` would claim this output.
    pub fn can_claim(&self, registers: &Registers, output: usize, outputs: &OutputsOf<T>) -> bool
        requires { output < LINKS }
        ensures { result ≡
            is_some
            (input_claim registers.now.settings self.now outputs.now output self.now.phase) }
    {
        let Stage::Want(link) = self.stage else {
            return false;
        };
        if !is_in_group(registers, link, output) {
            return false;
        }
        match registers.all_settings().get(output) {
            Some(own) => outputs.can_put_header(output, own, self.header.as_slice()),
            None => false,
        }
    }
}

/// A header joins an output, or is deleted there, as the output's own link says. False where it
/// can't be.
fn put_own<T: TokenKind>(
    registers: &Registers,
    output: usize,
    header: &[T],
    outputs: &mut OutputsOf<T>,
) -> bool
    ensures { (result, outputs.new) ≡
        bool_outcome (put_own registers.now.settings output header.now outputs.old) outputs.old }
{
    match registers.all_settings().get(output) {
        Some(own) => outputs.put_header(output, own, header),
        None => false,
    }
}
