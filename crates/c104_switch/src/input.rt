//! The input side of one link.
ghost use Rattle.std.specs.{Option.option_copied, Prelude.{IfOk, is_some, length, option_to_list, slice_get, ◌≡◌}};
ghost use Rattle.{c104_link.specs.{Buffers.{IsValidCap, IsWithinCap}, Steps.bool_outcome}, c104_switch.specs.Commands.input_reset};
ghost use Rattle.c104_switch.specs.{Holding.phase_claims, Peeks.is_busy, Phases.{is_want, streamed_output}, Readiness.may_turn};
ghost use Rattle.c104_switch.specs.{Starts.{IsLinkStart, start_input}, Switch.{Input, input_accept, input_grant, new_input}};
ghost use Rattle.c104_switch.specs.Views.{phase_view};

mod claims;
mod reasons;
mod stage;
mod tokens;
mod turns;

use crate::header::{HeaderBytes, HeaderOf};
use crate::link_start::LinkStart;
use crate::phase::Phase;
use c104_crossbar::Claim;
use c104_link::InBufferOf;
use c104_token::{NoMemory, TokenKind};
use stage::Stage;
use std::alloc::Global;
use std::marker::Model;
use std::mem;
pub use turns::Turn;

/// The input side of a link: its buffer, and where it is with its packet. While a packet streams,
/// its stage is the claim of the output.
pub struct InputOf<T: TokenKind> {
    buffer: InBufferOf<T>,
    stage: Stage,
    header: HeaderOf<T>,
    sunk: u32,
    short: u32,
}

impl<T: TokenKind> Model for InputOf<T> {
    ghost use Rattle.c104_switch.specs.Switch.{Input};

    ghost Value = { Input T };

    ghost use Rattle.c104_switch.specs.{Phases.HasRoom, Stages.stage_phase};

    ghost view = { λ p.
        record {
          buffer = p.buffer;
          phase = stage_phase p.stage p.header;
          sunk = p.sunk;
          short = p.short;
        } };

    ghost invariant = { λ p. HasRoom (stage_phase p.stage p.header) };
}

impl<T: TokenKind> InputOf<T> {
    /// A new input: no token, no packet under way, and nothing granted or counted. It fails only
    /// when out of memory.
    pub fn new(alloc: Global, cap: usize) -> Result<Self, NoMemory>
        requires { IsValidCap cap }
        ensures { IfOk result (λ p. p ≡ new_input cap) }
    {
        let buffer = InBufferOf::new(alloc, cap)?;
        let header = HeaderOf::new(alloc)?;
        Ok(InputOf {
            buffer,
            stage: Stage::Fresh,
            header,
            sunk: 0,
            short: 0,
        })
    }

    /// The input of a link at a start. It fails only when out of memory.
    pub fn from_start(alloc: Global, start: &LinkStart) -> Result<Self, NoMemory>
        requires { IsLinkStart start.now }
        ensures { IfOk result (λ p. p ≡ start_input start.now) }
    {
        let buffer = InBufferOf::granting(alloc, start.cap, start.granted)?;
        let header = HeaderOf::new(alloc)?;
        Ok(InputOf {
            buffer,
            stage: Stage::Fresh,
            header,
            sunk: start.sunk,
            short: start.short,
        })
    }

    /// Lets go of all but the claim, if the input holds one.
    pub fn retire(self) -> Option<Claim>
        ensures { option_to_list result ≡ phase_claims self.phase }
    {
        let InputOf {
            buffer: _,
            stage,
            header: _,
            sunk: _,
            short: _,
        } = self;
        stage.into_claim()
    }

    /// Discards the tokens, the packet under way and the counts. What is granted stays. The claim
    /// comes back, if the input holds one.
    pub fn reset(&mut self) -> Option<Claim>
        ensures reset { self.new ≡ input_reset self.old }
        ensures claims { option_to_list result ≡ phase_claims self.old.phase }
    {
        self.buffer.clear();
        self.header.clear();
        self.sunk = 0;
        self.short = 0;
        mem::replace(&mut self.stage, Stage::Fresh).into_claim()
    }

    /// Takes a token in, where one is granted.
    pub fn accept(&mut self, token: T) -> bool
        ensures { (result, self.new) ≡ bool_outcome (input_accept token self.old) self.old }
    {
        self.buffer.accept(token).is_ok()
    }

    /// Grants eight more tokens, where there is room for all that would then be granted.
    pub fn grant(&mut self) -> bool
        ensures { (result, self.new) ≡ bool_outcome (input_grant self.old) self.old }
    {
        self.buffer.grant()
    }

    /// For how many tokens the buffer has room.
    pub fn cap(&self) -> usize
        ensures { result ≡ self.now.buffer.cap }
    {
        self.buffer.cap()
    }

    /// How many tokens the buffer holds, 0 to 64.
    pub fn level(&self) -> usize
        ensures level { result ≡ length self.now.buffer.items }
        ensures within { IsWithinCap self.now.buffer }
    {
        self.buffer.len()
    }

    /// How many more tokens may come in, 0 to 64.
    pub fn granted(&self) -> usize
        ensures granted { result ≡ self.now.buffer.granted }
        ensures within { IsWithinCap self.now.buffer }
    {
        self.buffer.granted()
    }

    /// How many packets the input dropped since the last reset, at most 2³² - 1.
    pub fn sunk(&self) -> u32
        ensures { result ≡ self.now.sunk }
    {
        self.sunk
    }

    /// How many packets the input found too short since the last reset, at most 2³² - 1.
    pub fn short(&self) -> u32
        ensures { result ≡ self.now.short }
    {
        self.short
    }

    /// Whether a packet is on its way through the input.
    pub fn is_busy(&self) -> bool
        ensures { result ≡ is_busy self.now.phase }
    {
        match self.stage {
            Stage::Fresh => false,
            Stage::Head | Stage::Want(_) | Stage::Stream(_) | Stage::Sinking => true,
        }
    }

    /// What the input does with its next token.
    pub fn phase(&self) -> Phase<HeaderBytes>
        ensures { result ≡ phase_view T.kind self.now.phase }
    {
        match &self.stage {
            Stage::Fresh => Phase::Fresh,
            Stage::Head => Phase::Head(self.header.bytes()),
            Stage::Want(link) => Phase::Want(self.header.bytes(), *link),
            Stage::Stream(claim) => Phase::Stream(claim.output()),
            Stage::Sinking => Phase::Sinking,
        }
    }

    /// The claim that the input holds, which is that of the output that the packet streams to.
    pub fn claim_held(&self) -> Option<&Claim>
        ensures { option_copied result ≡ streamed_output self.now.phase }
    {
        match &self.stage {
            Stage::Stream(claim) => Some(claim),
            Stage::Fresh | Stage::Head | Stage::Want(_) | Stage::Sinking => None,
        }
    }

    /// Whether the packet's header wants an output. Without that the input claims none.
    pub fn is_wanting(&self) -> bool
        ensures { result ≡ is_want self.now.phase }
    {
        match self.stage {
            Stage::Want(_) => true,
            Stage::Fresh | Stage::Head | Stage::Stream(_) | Stage::Sinking => false,
        }
    }

    /// Whether `accept` would take a token in.
    pub fn can_accept(&self) -> bool
        ensures { (token : T) → result ≡ is_some (input_accept token self.now) }
    {
        self.buffer.granted() > 0
    }

    /// Whether the input has a token.
    pub fn has_token(&self) -> bool
        ensures { result ≡ is_some (slice_get self.now.buffer.items 0) }
    {
        self.buffer.first().is_some()
    }

    /// Whether the input has a token and doesn't want an output. Else it isn't ready for a turn.
    pub fn may_turn(&self) -> bool
        ensures { result ≡ may_turn self.now }
    {
        self.has_token() && !self.is_wanting()
    }

    /// Whether `grant` would grant.
    pub fn can_grant(&self) -> bool
        ensures { result ≡ is_some (input_grant self.now) }
    {
        self.buffer.can_grant()
    }
}
