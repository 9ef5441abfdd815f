//! The output sides of all links.
ghost use Rattle.std.specs.{Option.option_copied, Prelude.{All, IfOk, Some, is_some, length, map, replicate, slice_get, true, ℕ, ◌<◌, ◌≡◌, ◌≤◌}};
ghost use Rattle.{c104_crossbar.specs.Groups.has_bit, c104_link.specs.Buffers.{Outgoing, empty_outgoing, outgoing_clear}};
ghost use Rattle.c104_link.specs.Steps.{bool_outcome, option_outcome, step_at, yield_step_at};
ghost use Rattle.{c104_regs.specs.declared.registers.TheConstants.LINKS, c104_switch.specs.Claims.put_header};
ghost use Rattle.c104_switch.specs.{Readiness.AreSending, Starts.{IsLinkStart, start_output}};
ghost use Rattle.c104_link.specs.Buffers as buffer;

use crate::LINKS;
use crate::link_set::LinkSet;
use crate::link_start::LinkStart;
use c104_link::OutBufferOf;
use c104_regs::PackedSettings;
use c104_token::{NoMemory, TokenKind};
use std::alloc::Global;
use std::marker::Model;

/// The output sides of all links, in order.
#[derive(Drop)]
pub struct OutputsOf<T: TokenKind> {
    list: Vec<OutBufferOf<T>>,
    // Those that can send a token.
    sending: LinkSet,
}

impl<T: TokenKind> Model for OutputsOf<T> {
    ghost use Rattle.std.specs.Prelude.{List, length, ◌≤◌};
    ghost use Rattle.{c104_link.specs.Buffers.Outgoing, c104_regs.specs.declared.registers.TheConstants.LINKS};
    ghost use Rattle.c104_switch.specs.{Readiness.AreSending};

    ghost Value = { List (Outgoing T) };

    ghost view = { λ outputs. outputs.list.items };

    ghost invariant = { λ outputs.
        AreSending outputs.sending outputs.list.items
        × (length outputs.list.items ≤ LINKS) };
}

impl<T: TokenKind> OutputsOf<T> {
    /// New outputs: no token, and no credit. It fails only when out of memory.
    pub fn new(alloc: Global) -> Result<Self, NoMemory>
        ensures { IfOk result (λ qs. qs ≡ replicate LINKS empty_outgoing) }
    {
        let mut list = Vec::with_capacity(alloc, LINKS)?;
        for _ in 0..LINKS {
            list.push(OutBufferOf::new(alloc)?)?;
        }
        Ok(OutputsOf {
            list,
            sending: LinkSet::new(),
        })
    }

    /// The outputs of links at their starts. It fails only when out of memory.
    pub fn from_start(alloc: Global, links: &[LinkStart]) -> Result<Self, NoMemory>
        requires starts { All IsLinkStart links.now }
        requires count { length links.now ≤ LINKS }
        ensures { IfOk result (λ qs. qs ≡ map start_output links.now) }
    {
        let mut list = Vec::with_capacity(alloc, links.len())?;
        for link in links {
            list.push(OutBufferOf::with_credit(alloc, link.credit)?)?;
        }
        let sending = sending_of(list.as_slice());
        Ok(OutputsOf { list, sending })
    }

    /// Discards the tokens of all outputs. What they may send stays.
    pub fn clear(&mut self)
        ensures { self.new ≡ map outgoing_clear self.old }
    {
        for output in self.list.iter_mut() {
            output.clear();
        }
        self.sending = sending_of(self.list.as_slice());
    }

    /// The first token of an output goes out, where there are a token and a credit.
    pub fn leave(&mut self, link: usize) -> Option<T>
        ensures { (result, self.new) ≡
            option_outcome (yield_step_at self.old link buffer.outgoing_emit) self.old }
    {
        if !self.can_leave(link) {
            return None;
        }
        let list = &mut self.list;
        if link >= list.len() {
            return None;
        }
        let output = &mut list[link];
        let token = output.emit();
        // It can send no more than before.
        self.sending.remove_unless(link, output.can_emit());
        token
    }

    /// An output may send eight more tokens, where its credit is then at most 64.
    pub fn credited(&mut self, link: usize) -> bool
        ensures { (result, self.new) ≡
            bool_outcome (step_at self.old link buffer.outgoing_credited) self.old }
    {
        let list = &mut self.list;
        if link >= list.len() {
            return false;
        }
        let output = &mut list[link];
        let is_done = output.credited();
        self.sending.set(link, output.can_emit());
        is_done
    }

    /// A token joins an output that has room for it.
    #[inline(always)]
    pub fn put(&mut self, link: usize, token: T)
        requires { is_some (step_at self.old link (buffer.outgoing_put token)) ≡ true }
        ensures { step_at self.old link (buffer.outgoing_put token) ≡ Some self.new }
    {
        let list = &mut self.list;
        let output = &mut list[link];
        let _is_done = put(output, token);
        // It holds a token now, so it can send where it has credit.
        self.sending.add_if(link, output.credit() > 0);
    }

    /// A header joins an output as a whole, where there is room for it, or is deleted there, where
    /// the output's own link deletes headers.
    pub fn put_header(&mut self, link: usize, settings: &PackedSettings, header: &[T]) -> bool
        ensures { (result, self.new) ≡
            bool_outcome (step_at self.old link (put_header settings.now header.now)) self.old }
    {
        let list = &mut self.list;
        if link >= list.len() {
            return false;
        }
        let output = &mut list[link];
        let is_done = put_header(output, settings, header);
        self.sending.set(link, output.can_emit());
        is_done
    }

    /// The output of a link.
    pub fn get(&self, link: usize) -> Option<&OutBufferOf<T>>
        ensures { option_copied result ≡ slice_get self.now link }
    {
        self.list.get(link)
    }

    /// The outputs that can send a token.
    #[inline(always)]
    pub fn sending(&self) -> LinkSet
        ensures { (l : ℕ) → l < LINKS → has_bit result l ≡ is_some (yield_step_at self.now l buffer.outgoing_emit) }
    {
        self.sending
    }

    /// Whether `leave` would give a token.
    #[inline(always)]
    pub fn can_leave(&self, link: usize) -> bool
        ensures { result ≡ is_some (yield_step_at self.now link buffer.outgoing_emit) }
    {
        match self.list.get(link) {
            Some(output) => output.can_emit(),
            None => false,
        }
    }

    /// Whether `credited` would add the credit.
    pub fn can_be_credited(&self, link: usize) -> bool
        ensures { result ≡ is_some (step_at self.now link buffer.outgoing_credited) }
    {
        match self.list.get(link) {
            Some(output) => output.can_be_credited(),
            None => false,
        }
    }

    /// Whether `put` would append a token.
    pub fn can_put(&self, link: usize) -> bool
        ensures { (token : T) → result ≡
            is_some (step_at self.now link (buffer.outgoing_put token)) }
    {
        match self.list.get(link) {
            Some(output) => output.can_put(),
            None => false,
        }
    }

    /// Whether `put_header` would append or delete this header.
    pub fn can_put_header(&self, link: usize, settings: &PackedSettings, header: &[T]) -> bool
        ensures { result ≡ is_some (step_at self.now link (put_header settings.now header.now)) }
    {
        match self.list.get(link) {
            Some(output) => can_put_header(output, settings, header),
            None => false,
        }
    }
}

/// Those of these outputs that can send a token.
fn sending_of<T: TokenKind>(list: &[OutBufferOf<T>]) -> LinkSet
    ensures { AreSending result list.now }
{
    let mut sending = LinkSet::new();
    for (link, output) in list.iter().enumerate() {
        sending.set(link, output.can_emit());
    }
    sending
}

/// A token joins an output buffer, where there is room for it.
#[inline(always)]
fn put<T: TokenKind>(output: &mut OutBufferOf<T>, token: T) -> bool
    ensures { (result, output.new) ≡
        bool_outcome (buffer.outgoing_put token output.old) output.old }
{
    output.put(token).is_ok()
}

/// A header joins an output buffer as a whole, or its link deletes it.
fn put_header<T: TokenKind>(
    output: &mut OutBufferOf<T>,
    settings: &PackedSettings,
    header: &[T],
) -> bool
    ensures { (result, output.new) ≡
        bool_outcome (put_header settings.now header.now output.old) output.old }
{
    settings.delete_header() || output.put_all(header)
}

/// Whether `put_header` would append or delete this header.
fn can_put_header<T: TokenKind>(
    output: &OutBufferOf<T>,
    settings: &PackedSettings,
    header: &[T],
) -> bool
    ensures { result ≡ is_some (put_header settings.now header.now output.now) }
{
    settings.delete_header() || output.can_put_all(header)
}
