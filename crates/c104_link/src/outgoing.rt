//! The output buffer of a link.
ghost use Rattle.std.specs.Prelude.{◌≡◌, ◌≤◌, ◌↔◌, [], length, slice_get, is_some, IsTrue, IfOk};
ghost use Rattle.c104_link.specs.Steps.{bool_outcome, option_outcome, result_outcome};
ghost use Rattle.c104_link.specs.Buffers.{IsWithinLimits, empty_outgoing, start_outgoing, outgoing_put, outgoing_put_all, outgoing_emit, outgoing_credited, outgoing_clear};
ghost use Rattle.c104_link.specs.declared.outgoing.TheConstants.{CREDIT_LIMIT};

use crate::TOKENS_OF_A_GRANT;
use c104_token::{NoMemory, Token, TokenKind};
use circular_buffer::HeapCircularBuffer;
use std::alloc::Global;
use std::marker::Model;

/// The tokens that an output buffer has room for in this emulator.
pub const OUTPUT_CAP: usize = 8;

/// The most tokens that the other end of a wire can have granted in this emulator, where no input
/// buffer has room for more.
pub const CREDIT_LIMIT: usize = 64;

/// The output buffer of a link, which holds tokens in the order in which they joined.
///
/// It sends a token over its wire only against a credit. Where each credit stands for what the
/// other end has granted, that end has room for the token.
#[derive(Drop)]
pub struct OutBufferOf<T: TokenKind> {
    ring: HeapCircularBuffer<T>,
    credit: usize,
}

/// An output buffer of plain tokens.
pub type OutBuffer = OutBufferOf<Token>;

impl<T: TokenKind> Model for OutBufferOf<T> {
    ghost use Rattle.std.specs.Prelude.{◌≡◌};
    ghost use Rattle.c104_link.specs.{Buffers.{IsWithinLimits, Outgoing}, declared.outgoing.TheConstants.OUTPUT_CAP};

    ghost Value = { Outgoing T };

    ghost view = { λ q. record { items = q.ring.items; credit = q.credit } };

    ghost invariant = { λ q. (q.ring.capacity ≡ OUTPUT_CAP)
        × IsWithinLimits (record { items = q.ring.items; credit = q.credit }) };
}

impl<T: TokenKind> OutBufferOf<T> {
    /// An empty buffer, with no credit. It fails only when out of memory.
    pub fn new(alloc: Global) -> Result<Self, NoMemory>
        ensures { IfOk result (λ q. q ≡ empty_outgoing) }
    {
        let ring = HeapCircularBuffer::with_capacity(alloc, OUTPUT_CAP)?;
        Ok(OutBufferOf { ring, credit: 0 })
    }

    /// An empty buffer, with credit for `credit` tokens. It fails only when out of memory.
    pub fn with_credit(alloc: Global, credit: usize) -> Result<Self, NoMemory>
        requires { credit ≤ CREDIT_LIMIT }
        ensures { IfOk result (λ q. q ≡ start_outgoing credit) }
    {
        let ring = HeapCircularBuffer::with_capacity(alloc, OUTPUT_CAP)?;
        Ok(OutBufferOf { ring, credit })
    }

    /// How many tokens the buffer holds: at most 8.
    pub fn len(&self) -> usize
        ensures len { result ≡ length self.now.items }
        ensures within { IsWithinLimits self.now }
    {
        self.ring.len()
    }

    /// Whether the buffer holds no token.
    pub fn is_empty(&self) -> bool
        ensures { IsTrue result ↔ (self.now.items ≡ []) }
    {
        self.ring.is_empty()
    }

    /// The token at this index, from 0 at the first, which goes out next. None past the last one.
    pub fn get(&self, index: usize) -> Option<T>
        ensures { result ≡ slice_get self.now.items index }
    {
        self.ring.get(index).copied()
    }

    /// How many tokens the buffer may send, which the other end of the wire has granted: at most
    /// 64.
    pub fn credit(&self) -> usize
        ensures credit { result ≡ self.now.credit }
        ensures within { IsWithinLimits self.now }
    {
        self.credit
    }

    /// Whether `put` would append a token.
    #[inline(always)]
    pub fn can_put(&self) -> bool
        ensures { (token : T) → result ≡ is_some (outgoing_put token self.now) }
    {
        !self.ring.is_full()
    }

    /// Appends a token. Where the buffer holds eight, hands the token back and changes nothing.
    #[inline(always)]
    pub fn put(&mut self, token: T) -> Result<(), T>
        ensures { (result, self.new) ≡ result_outcome token (outgoing_put token self.old) self.old }
    {
        self.ring.try_push_back(token)
    }

    /// Whether `put_all` would append these tokens.
    pub fn can_put_all(&self, tokens: &[T]) -> bool
        ensures { result ≡ is_some (outgoing_put_all tokens.now self.now) }
    {
        tokens.len() <= OUTPUT_CAP - self.ring.len()
    }

    /// Appends several tokens as a whole. False, and nothing changes, where the buffer would then
    /// hold more than eight.
    pub fn put_all(&mut self, tokens: &[T]) -> bool
        ensures { (result, self.new) ≡
            bool_outcome (outgoing_put_all tokens.now self.old) self.old }
    {
        if !self.can_put_all(tokens) {
            return false;
        }
        self.ring.fill_from_slice(tokens);
        true
    }

    /// Whether `emit` would give a token.
    #[inline(always)]
    pub fn can_emit(&self) -> bool
        ensures { result ≡ is_some (outgoing_emit self.now) }
    {
        !self.ring.is_empty() && self.credit > 0
    }

    /// Takes out the first token to send it, which spends one credit. None, and nothing changes,
    /// where the buffer is empty or has no credit.
    pub fn emit(&mut self) -> Option<T>
        ensures { (result, self.new) ≡ option_outcome (outgoing_emit self.old) self.old }
    {
        if self.credit == 0 {
            return None;
        }
        let token = self.ring.pop_front()?;
        self.credit -= 1;
        Some(token)
    }

    /// Whether `credited` would add the credits.
    pub fn can_be_credited(&self) -> bool
        ensures { result ≡ is_some (outgoing_credited self.now) }
    {
        CREDIT_LIMIT - self.credit >= TOKENS_OF_A_GRANT
    }

    /// Adds the eight credits of a flow-control token that came over the wire. False, and nothing
    /// changes, where the credit would then pass 64.
    pub fn credited(&mut self) -> bool
        ensures { (result, self.new) ≡ bool_outcome (outgoing_credited self.old) self.old }
    {
        if !self.can_be_credited() {
            return false;
        }
        self.credit += TOKENS_OF_A_GRANT;
        true
    }

    /// Throws the tokens away. The credit stays, since the other end of the wire keeps room for
    /// it.
    pub fn clear(&mut self)
        ensures { self.new ≡ outgoing_clear self.old }
    {
        self.ring.clear();
    }
}
