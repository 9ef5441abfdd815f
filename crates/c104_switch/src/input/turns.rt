//! What an input does with its first token.
ghost use Rattle.std.specs.Prelude.{IfSome, List, None, false, if◌then◌else◌, is_some, true, ℕ, ◌++◌, ◌≡◌};
ghost use Rattle.{c104_regs.specs.declared.settings.Settings.Settings as TheSettings, c104_switch.specs.Headers.phase_after_header};
ghost use Rattle.c104_switch.specs.{Headers.random_header, Holding.{HasStreamed, freed_claims, is_done_turn, phase_claims}, Phases.HasRoom};
ghost use Rattle.c104_switch.specs.{Phases.{IsReading, Sinking, streamed_output, tokens_read}, Stages.stage_phase, Switch.{Fresh, Stream, count_after}};
ghost use Rattle.c104_switch.specs.Turns.{IsTurn, header_turn, input_after_token, input_turn, random_turn};
ghost use Rattle.{c104_link.specs.Buffers.Outgoing, c104_token.specs.Tokens.is_end};

use super::InputOf;
use super::stage::Stage;
use crate::header::HeaderOf;
use crate::outputs::OutputsOf;
use c104_crossbar::Claim;
use c104_interval::Select;
use c104_regs::PackedSettings;
use c104_token::{Token, TokenKind};
use std::mem;

/// What came of a turn.
pub enum Turn {
    /// Nothing: it wasn't ready.
    NotReady,
    /// A token of a packet that streams went on.
    Streamed,
    /// The same of the packet's terminator, which gave its claim back.
    Freed(Claim),
}

impl<T: TokenKind> InputOf<T> {
    /// What an input that streams to no output does with its first token. It isn't ready, and
    /// nothing changes, where it has none or waits for an output.
    pub fn turn(&mut self, settings: &PackedSettings, word: u32) -> bool
        requires { streamed_output self.old.phase ≡ None }
        ensures turned { (outputs : List (Outgoing T)) → IsTurn T.kind settings.now word
            self.old outputs result self.new outputs }
        ensures held { streamed_output self.new.phase ≡ None }
    {
        let Some(token) = self.buffer.first() else {
            return false;
        };
        let ends = is_end(token.plain());
        match &self.stage {
            Stage::Fresh if settings.randomize() && !ends => self.read_random(settings, word),
            Stage::Fresh => self.read_token(settings, token),
            Stage::Head => self.read_token(settings, token),
            Stage::Want(_) => return false,
            Stage::Stream(_) => unreachable!(),
            Stage::Sinking => self.sink(ends),
        }
        true
    }

    /// The output that the packet streams to, if it does.
    #[inline(always)]
    pub fn streams_to(&self) -> Option<usize>
        ensures output { IfSome result (λ output. self.now.phase ≡ Stream output) }
        ensures exactly { result ≡ streamed_output self.now.phase }
    {
        match &self.stage {
            Stage::Stream(claim) => Some(claim.output()),
            Stage::Fresh | Stage::Head | Stage::Want(_) | Stage::Sinking => None,
        }
    }

    /// Whether `turn` would do something, which no setting and no word decides.
    pub fn can_turn(&self, outputs: &OutputsOf<T>) -> bool
        ensures { (settings : TheSettings) (word : ℕ) →
            result ≡ is_some (input_turn T.kind settings word self.now outputs.now) }
    {
        if self.buffer.first().is_none() {
            return false;
        }
        match &self.stage {
            Stage::Fresh | Stage::Head | Stage::Sinking => true,
            Stage::Want(_) => false,
            Stage::Stream(claim) => outputs.can_put(claim.output()),
        }
    }

    /// Uses the first token of a packet that is dropped. A terminator ends it.
    fn sink(&mut self, ends: bool)
        requires { self.old.phase ≡ Sinking }
        ensures { self.new ≡
            input_after_token self.old (if ends then Fresh else self.old.phase) false false }
    {
        self.buffer.take();
        if ends {
            self.stage.set(Stage::Fresh);
        }
    }

    /// The first token of a packet that streams to this output goes on, where there are a token and
    /// room for it. A terminator ends the packet and gives the claim back.
    #[inline(always)]
    pub fn stream(&mut self, output: usize, outputs: &mut OutputsOf<T>) -> Turn
        requires { self.old.phase ≡ Stream output }
        ensures turned { (settings : TheSettings) (word : ℕ) → IsTurn T.kind settings word
            self.old outputs.old (is_done_turn result) self.new outputs.new }
        ensures claims { phase_claims self.old.phase ≡
            freed_claims result ++ phase_claims self.new.phase }
        ensures streamed { HasStreamed result self.old self.new }
    {
        if !outputs.can_put(output) {
            return Turn::NotReady;
        }
        let Some(token) = self.buffer.take() else {
            return Turn::NotReady;
        };
        outputs.put(output, token);
        if !is_end(token.plain()) {
            return Turn::Streamed;
        }
        let Some(claim) = mem::replace(&mut self.stage, Stage::Fresh).into_claim() else {
            unreachable!();
        };
        Turn::Freed(claim)
    }

    /// Reads the first token of a header, or one more.
    fn read_token(&mut self, settings: &PackedSettings, token: T)
        requires { IsReading self.old.phase }
        ensures { self.new ≡
            header_turn T.kind settings.now self.old (tokens_read self.old.phase) token }
    {
        self.buffer.take();
        if is_end(token.plain()) {
            self.stage.set(Stage::Fresh);
            self.short = counted(self.short, true);
            return;
        }
        if let Stage::Fresh = self.stage {
            self.header.clear();
        }
        self.header.push(token);
        let (stage, sinks) = read(settings, &mut self.header);
        self.stage.set(stage);
        self.sunk = counted(self.sunk, sinks);
    }

    /// Puts a random header before the packet, and uses no token.
    fn read_random(&mut self, settings: &PackedSettings, word: u32)
        requires { IsReading self.old.phase }
        ensures { self.new ≡ random_turn T.kind settings.now word self.old }
    {
        put_random(settings, word, &mut self.header);
        let (stage, sinks) = read(settings, &mut self.header);
        self.stage.set(stage);
        self.sunk = counted(self.sunk, sinks);
    }
}

/// One more, where there is one more; a count stays at its largest value.
fn counted(count: u32, more: bool) -> u32
    ensures { result ≡ count_after count more }
{
    if more { count.saturating_add(1) } else { count }
}

/// Where an input is after these tokens of a header, and whether it drops the packet.
fn read<T: TokenKind>(settings: &PackedSettings, header: &mut HeaderOf<T>) -> (Stage, bool)
    ensures phase { stage_phase result.0 header.new ≡
        (phase_after_header T.kind settings.now header.old).0 }
    ensures sinks { result.1 ≡ (phase_after_header T.kind settings.now header.old).1 }
    ensures room { HasRoom (stage_phase result.0 header.new) }
{
    if header.len() < settings.header_length() {
        return (Stage::Head, false);
    }
    match settings.select(header.value()) {
        Select::Link(link) => (Stage::Want(link), false),
        Select::Discard => {
            header.clear();
            (Stage::Head, false)
        }
        Select::Sink => (Stage::Sinking, true),
    }
}

/// Whether a token ends a packet.
fn is_end(token: Token) -> bool
    ensures { result ≡ is_end token }
{
    match token {
        Token::Byte(_) => false,
        Token::Eop | Token::Eom => true,
    }
}

/// The random header that a word gives.
fn put_random<T: TokenKind>(settings: &PackedSettings, word: u32, header: &mut HeaderOf<T>)
    ensures { header.new ≡ random_header T.kind settings.now word }
{
    let past = if settings.random_range() == 0 {
        0
    } else {
        word % settings.random_range()
    };
    let number = u64::from(settings.random_base()) + u64::from(past);
    header.clear();
    header.push(T::random(0, Token::Byte((number % 256) as u8)));
    if settings.two_byte() {
        header.push(T::random(1, Token::Byte((number / 256 % 256) as u8)));
    }
}
