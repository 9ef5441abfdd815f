//! The switch: what is set at each link, and the two sides of each link.
ghost use Rattle.std.specs.{Option.option_copied, Prelude.{IfOk, false, true, ◌≡◌}};
ghost use Rattle.{c104_crossbar.specs.Marks.ArePartition, c104_link.specs.{Buffers.IsValidCap, Steps.{bool_outcome, option_outcome}}};
ghost use Rattle.c104_switch.specs.{Claims.switch_claim, Holding.{claim_at, held_claims}, Soundness.IsSound, Switch.new_switch};
ghost use Rattle.c104_switch.specs.Switch.{new_switch_with, switch_credit_in, switch_credit_out, switch_enter, switch_leave};
ghost use Rattle.c104_switch.specs.{Turns.switch_input, Views.link_view};

mod commands;
mod control;
mod next_links;
mod peeks;
mod readiness;
mod reasons;
mod rooms;
mod starts;
mod tokens;

use crate::actions::LinkView;
use crate::inputs::InputsOf;
use crate::outputs::OutputsOf;
use c104_crossbar::{Claim, Crossbar};
use c104_regs::Registers;
use c104_token::{NoMemory, Token, TokenKind};
use std::alloc::Global;
use std::marker::Model;

/// One IMS C104, over any kind of token.
///
/// An action answers false or None where it isn't ready, and then nothing has changed. No action
/// takes memory. A switch can't be dropped while its inputs hold claims: `retire` spends them.
// The registers lie on the heap: they are 5.4 KB, and a node is a switch or a terminal, so a terminal would pay for them
// too.
pub struct SwitchOf<T: TokenKind> {
    // On the heap, so that a node of a network that is a terminal doesn't take the size of these.
    registers: Box<Registers>,
    inputs: InputsOf<T>,
    outputs: OutputsOf<T>,
}

/// A switch of plain tokens.
pub type Switch = SwitchOf<Token>;

impl<T: TokenKind> Model for SwitchOf<T> {
    ghost use Rattle.c104_switch.specs.{Soundness.IsSound, Switch.Switch};

    ghost Value = { Switch T };

    ghost view = { λ s.
        record {
          started = s.registers.value.started;
          settings = s.registers.value.settings;
          inputs = s.inputs;
          outputs = s.outputs;
        } };

    ghost invariant = { λ s.
        IsSound (record {
          started = s.registers.value.started;
          settings = s.registers.value.settings;
          inputs = s.inputs;
          outputs = s.outputs;
        }) };
}

impl<T: TokenKind> SwitchOf<T> {
    /// A new switch: reset, not started, with no token anywhere, nothing granted and no credit. Its
    /// input buffers have room for `cap` tokens each, one of 8, 16, .. 64. It fails only when out
    /// of memory.
    pub fn new(alloc: Global, cap: usize) -> Result<Self, NoMemory>
        requires { IsValidCap cap }
        ensures { IfOk result (λ s. s ≡ new_switch cap) }
    {
        let registers = Box::new(alloc, Registers::new())?;
        let outputs = OutputsOf::new(alloc)?;
        let inputs = InputsOf::new(alloc, cap)?;
        Ok(SwitchOf {
            registers,
            inputs,
            outputs,
        })
    }

    /// A switch that is started, with the settings of these registers at its 32 links, and no token
    /// anywhere. Its input buffers have room for `cap` tokens each, one of 8, 16, .. 64. It fails
    /// only when out of memory.
    pub fn placed(alloc: Global, cap: usize, registers: &Registers) -> Result<Self, NoMemory>
        requires { IsValidCap cap }
        ensures { IfOk result (λ s. s ≡ new_switch_with cap registers.now.settings true) }
    {
        let registers = Box::new(alloc, registers.placed_again())?;
        let outputs = OutputsOf::new(alloc)?;
        let inputs = InputsOf::new(alloc, cap)?;
        Ok(SwitchOf {
            registers,
            inputs,
            outputs,
        })
    }

    /// Gives the claims of all inputs back, and drops all else.
    pub fn retire(self) {
        let SwitchOf {
            registers: _,
            inputs,
            outputs: _,
        } = self;
        inputs.retire();
    }

    /// Whether the switch was started. Until then it grants nothing and moves no token inside.
    pub fn started(&self) -> bool
        ensures value { result ≡ self.now.started }
        ensures sound { IsSound self.now }
    {
        self.registers.started()
    }

    /// The crossbar: the outputs of the claims that inputs hold and its free outputs are the 32
    /// outputs, each once.
    pub fn crossbar(&self) -> &Crossbar
        ensures { ArePartition (held_claims self.now.inputs) result.now }
    {
        self.inputs.crossbar()
    }

    /// The claim that an input holds: that of the output that it streams to, as long as it does.
    /// None where the input's number is 32 or more.
    pub fn claim_held(&self, input: usize) -> Option<&Claim>
        ensures { option_copied result ≡ claim_at self.now input }
    {
        self.inputs.get(input)?.claim_held()
    }

    /// What can be seen of a link: None where its number is 32 or more.
    pub fn view(&self, link: usize) -> Option<LinkView>
        ensures { result ≡ link_view T.kind self.now link }
    {
        let input = self.inputs.get(link)?;
        let output = self.outputs.get(link)?;
        Some(LinkView {
            input_level: input.level(),
            output_level: output.len(),
            credit: output.credit(),
            granted: input.granted(),
            owner: self.inputs.owner(link),
            phase: input.phase(),
        })
    }

    /// A token comes in over a link's wire, where one is granted.
    #[inline(always)]
    pub fn enter(&mut self, link: usize, token: T) -> bool
        ensures { (result, self.new) ≡ bool_outcome (switch_enter self.old link token) self.old }
    {
        self.inputs.accept(link, token)
    }

    /// The first token of a link's output goes out over its wire, where there are a token and a
    /// credit.
    #[inline(always)]
    pub fn leave(&mut self, link: usize) -> Option<T>
        ensures { (result, self.new) ≡ option_outcome (switch_leave self.old link) self.old }
    {
        self.outputs.leave(link)
    }

    /// A link grants eight more tokens to the other end of its wire, where the switch is started
    /// and its buffer has room for all that would then be granted.
    pub fn credit_out(&mut self, link: usize) -> bool
        ensures { (result, self.new) ≡ bool_outcome (switch_credit_out self.old link) self.old }
    {
        self.registers.started() && self.inputs.grant(link)
    }

    /// The other end of a link's wire has granted eight more tokens, where the link's credit is
    /// then at most 64.
    pub fn credit_in(&mut self, link: usize) -> bool
        ensures { (result, self.new) ≡ bool_outcome (switch_credit_in self.old link) self.old }
    {
        self.outputs.credited(link)
    }

    /// An input takes a turn with its first token, where the switch is started. It isn't ready
    /// without a token, while it wants an output, or where the output that it streams to is full.
    /// The word picks a random header, where the input puts one before its packets.
    pub fn input(&mut self, link: usize, word: u32) -> bool
        ensures { (result, self.new) ≡
            bool_outcome (switch_input T.kind self.old link word) self.old }
    {
        if !self.registers.started() {
            return unready();
        }
        let Some(settings) = self.registers.all_settings().get(link) else {
            return unready();
        };
        self.inputs.turn(link, settings, word, &mut self.outputs)
    }

    /// An input claims an output of the group that it wants, where the switch is started, no input
    /// owns the output, and it has room for the header or deletes it.
    pub fn claim(&mut self, input: usize, output: usize) -> bool
        ensures { (result, self.new) ≡ bool_outcome (switch_claim self.old input output) self.old }
    {
        self.registers.started()
            && self
                .inputs
                .claim(input, &self.registers, output, &mut self.outputs)
    }
}

/// False. It is a call of what is seldom called: so the other branch is the one that is made quick.
#[cold]
#[inline(never)]
fn unready() -> bool
    ensures { result ≡ false }
{
    false
}
