//! Why a switch isn't ready for an action.
ghost use Rattle.std.specs.Prelude.{IfSome, is_none, ◌≡◌};
ghost use Rattle.c104_switch.specs.{Actions.{is_ready, switch_step}, ReasonMeanings.IsReason, Reasons.{claim_why, credit_in_why}};
ghost use Rattle.c104_switch.specs.Reasons.{credit_out_why, credited_why, emit_why, enter_why, input_why, leave_why, switch_why};

use super::SwitchOf;
use crate::actions::ActionOf;
use crate::unready::Unready;
use c104_link::OutBufferOf;
use c104_token::TokenKind;

impl<T: TokenKind> SwitchOf<T> {
    /// Why `step` would answer NotReady to this action: the first of its conditions that doesn't
    /// hold. None where `step` would do it.
    #[tactic(auto, using(crate::proofs::UnreadyActions::unready_told))]
    pub fn why(&self, action: &ActionOf<T>) -> Option<Unready>
        ensures why { result ≡ switch_why self.now action.now }
        ensures ready { is_none result ≡ is_ready (switch_step T.kind self.now action.now).0 }
        ensures holds { IfSome result (IsReason self.now action.now) }
    {
        self.first_reason(action)
    }

    /// Why an action isn't ready, by the kind of action.
    fn first_reason(&self, action: &ActionOf<T>) -> Option<Unready>
        ensures { result ≡ switch_why self.now action.now }
    {
        match action {
            ActionOf::Enter(link, _) => self.why_enter(*link),
            ActionOf::Leave(link) => self.why_leave(*link),
            ActionOf::CreditOut(link) => self.why_credit_out(*link),
            ActionOf::CreditIn(link) => self.why_credit_in(*link),
            ActionOf::Input(link, _) => self.why_input(*link),
            ActionOf::Claim(input, output) => self.why_claim(*input, *output),
            ActionOf::Control(_) => None,
        }
    }

    /// Why `enter` would take no token in: NoLink or NotGranted.
    pub fn why_enter(&self, link: usize) -> Option<Unready>
        ensures { result ≡ enter_why self.now link }
    {
        match self.inputs.get(link) {
            Some(input) => input.why_accept(),
            None => Some(Unready::NoLink),
        }
    }

    /// Why `leave` would give no token: NoLink, NoToken or NoCredit.
    pub fn why_leave(&self, link: usize) -> Option<Unready>
        ensures { result ≡ leave_why self.now link }
    {
        match self.outputs.get(link) {
            Some(output) => why_emit(output),
            None => Some(Unready::NoLink),
        }
    }

    /// Why `credit_out` would grant nothing: NoLink, NotStarted or NoRoom.
    pub fn why_credit_out(&self, link: usize) -> Option<Unready>
        ensures { result ≡ credit_out_why self.now link }
    {
        match self.inputs.get(link) {
            Some(_) if !self.registers.started() => Some(Unready::NotStarted),
            Some(input) => input.why_grant(),
            None => Some(Unready::NoLink),
        }
    }

    /// Why `credit_in` would add no credit: NoLink or CreditFull.
    pub fn why_credit_in(&self, link: usize) -> Option<Unready>
        ensures { result ≡ credit_in_why self.now link }
    {
        match self.outputs.get(link) {
            Some(output) => why_credited(output),
            None => Some(Unready::NoLink),
        }
    }

    /// Why `input` would do nothing, which no word decides: NoLink, NotStarted, NoToken, WantsOutput
    /// or OutputFull.
    pub fn why_input(&self, link: usize) -> Option<Unready>
        ensures { result ≡ input_why self.now link }
    {
        let Some(_settings) = self.registers.all_settings().get(link) else {
            return Some(Unready::NoLink);
        };
        let Some(input) = self.inputs.get(link) else {
            return Some(Unready::NoLink);
        };
        if !self.registers.started() {
            return Some(Unready::NotStarted);
        }
        input.why_turn(&self.outputs)
    }

    /// Why `claim` would not claim the output: NoLink, NotStarted, WantsNothing, OutsideGroup, Owned
    /// or NoRoomForHeader.
    pub fn why_claim(&self, input: usize, output: usize) -> Option<Unready>
        ensures { result ≡ claim_why self.now input output }
    {
        let Some(claiming) = self.inputs.get(input) else {
            return Some(Unready::NoLink);
        };
        let Some(own) = self.registers.all_settings().get(output) else {
            return Some(Unready::NoLink);
        };
        let Some(buffer) = self.outputs.get(output) else {
            return Some(Unready::NoLink);
        };
        if !self.registers.started() {
            return Some(Unready::NotStarted);
        }
        let owner = self.inputs.owner(output);
        claiming.why_claim(&self.registers, output, owner, own, buffer)
    }
}

/// Why an output buffer would give no token.
fn why_emit<T: TokenKind>(output: &OutBufferOf<T>) -> Option<Unready>
    ensures { result ≡ emit_why output.now }
{
    if output.len() == 0 {
        return Some(Unready::NoToken);
    }
    if output.credit() == 0 {
        return Some(Unready::NoCredit);
    }
    None
}

/// Why an output buffer may not send eight more tokens.
fn why_credited<T: TokenKind>(output: &OutBufferOf<T>) -> Option<Unready>
    ensures { result ≡ credited_why output.now }
{
    if output.can_be_credited() {
        None
    } else {
        Some(Unready::CreditFull)
    }
}
