//! The input buffer of a link.
ghost use Rattle.std.specs.Prelude.{◌≡◌, ◌≤◌, ◌↔◌, [], length, slice_get, is_some, IsTrue, IfOk};
ghost use Rattle.c104_link.specs.Steps.{bool_outcome, option_outcome, result_outcome};
ghost use Rattle.c104_link.specs.Buffers.{IsValidCap, IsWithinCap, empty_incoming, start_incoming, incoming_grant, incoming_accept, without_first, incoming_take, incoming_clear};

use crate::TOKENS_OF_A_GRANT;
use crate::outgoing::CREDIT_LIMIT;
use c104_token::{NoMemory, Token, TokenKind};
use circular_buffer::HeapCircularBuffer;
use std::alloc::Global;
use std::marker::Model;

/// Whether an input buffer may have this capacity: 8, 16, .. 64 tokens in this emulator.
pub fn valid_cap(cap: usize) -> bool
    ensures { IsTrue result ↔ IsValidCap cap }
{
    cap % TOKENS_OF_A_GRANT == 0 && (TOKENS_OF_A_GRANT..=CREDIT_LIMIT).contains(&cap)
}

/// The input buffer of a link, which holds tokens in the order in which they came.
///
/// It grants tokens to the other end of its wire, eight at a time, and keeps room for all that it
/// has granted. A token that none was granted for is handed back.
#[derive(Drop)]
pub struct InBufferOf<T: TokenKind> {
    ring: HeapCircularBuffer<T>,
    granted: usize,
}

/// An input buffer of plain tokens.
pub type InBuffer = InBufferOf<Token>;

impl<T: TokenKind> Model for InBufferOf<T> {
    ghost use Rattle.c104_link.specs.Buffers.{Incoming, IsWithinCap};

    ghost Value = { Incoming T };

    ghost view = { λ b. record { cap = b.ring.capacity; items = b.ring.items; granted = b.granted } };

    ghost invariant = { λ b. IsWithinCap (record { cap = b.ring.capacity; items = b.ring.items; granted = b.granted }) };
}

impl<T: TokenKind> InBufferOf<T> {
    /// An empty buffer with room for `cap` tokens, none of them granted. It fails only out
    /// of memory.
    pub fn new(alloc: Global, cap: usize) -> Result<Self, NoMemory>
        requires { IsValidCap cap }
        ensures { IfOk result (λ b. b ≡ empty_incoming cap) }
    {
        let ring = HeapCircularBuffer::with_capacity(alloc, cap)?;
        Ok(InBufferOf { ring, granted: 0 })
    }

    /// An empty buffer with room for `cap` tokens, of which it has granted `granted`. It fails only when
    /// out of memory.
    pub fn granting(alloc: Global, cap: usize, granted: usize) -> Result<Self, NoMemory>
        requires cap { IsValidCap cap }
        requires room { granted ≤ cap }
        ensures { IfOk result (λ b. b ≡ start_incoming cap granted) }
    {
        let ring = HeapCircularBuffer::with_capacity(alloc, cap)?;
        Ok(InBufferOf { ring, granted })
    }

    /// How many tokens the buffer has room for: 8, 16, .. 64.
    pub fn cap(&self) -> usize
        ensures cap { result ≡ self.now.cap }
        ensures within { IsWithinCap self.now }
    {
        self.ring.capacity()
    }

    /// How many tokens the buffer holds. With the granted ones they are at most its capacity.
    pub fn len(&self) -> usize
        ensures len { result ≡ length self.now.items }
        ensures within { IsWithinCap self.now }
    {
        self.ring.len()
    }

    /// Whether the buffer holds no token.
    pub fn is_empty(&self) -> bool
        ensures { IsTrue result ↔ (self.now.items ≡ []) }
    {
        self.ring.is_empty()
    }

    /// How many more tokens the other end of the wire may send. With those that the buffer holds
    /// they are at most its capacity.
    pub fn granted(&self) -> usize
        ensures granted { result ≡ self.now.granted }
        ensures within { IsWithinCap self.now }
    {
        self.granted
    }

    /// The first token, if there is one. It stays where it is.
    pub fn first(&self) -> Option<T>
        ensures { result ≡ slice_get self.now.items 0 }
    {
        self.ring.front().copied()
    }

    /// The token at this index, from 0 at the first. None past the last one.
    pub fn get(&self, index: usize) -> Option<T>
        ensures { result ≡ slice_get self.now.items index }
    {
        self.ring.get(index).copied()
    }

    /// Grants eight more tokens to the other end of the wire, as a flow-control token tells it.
    /// False, and nothing changes, where the buffer has no room for all that would then be granted
    /// (the data sheet's rule).
    pub fn grant(&mut self) -> bool
        ensures { (result, self.new) ≡ bool_outcome (incoming_grant self.old) self.old }
    {
        if !self.can_grant() {
            return false;
        }
        self.granted += TOKENS_OF_A_GRANT;
        true
    }

    /// Whether `grant` would grant.
    #[inline(always)]
    pub fn can_grant(&self) -> bool
        ensures { result ≡ is_some (incoming_grant self.now) }
    {
        let room = self.ring.capacity() - self.ring.len() - self.granted;
        room >= TOKENS_OF_A_GRANT
    }

    /// Takes in a token that came over the wire, which uses one of those granted. Where none is
    /// granted, hands the token back and changes nothing.
    pub fn accept(&mut self, token: T) -> Result<(), T>
        ensures { (result, self.new) ≡
            result_outcome token (incoming_accept token self.old) self.old }
    {
        if self.granted == 0 {
            return Err(token);
        }
        self.ring.try_push_back(token)?;
        self.granted -= 1;
        Ok(())
    }

    /// Takes the first token out, if there is one. Its room is for a later grant: what is granted
    /// stays as it is.
    #[inline(always)]
    pub fn take(&mut self) -> Option<T>
        ensures taken { (result, self.new) ≡ option_outcome (incoming_take self.old) self.old }
        ensures rest { self.new ≡ without_first self.old }
    {
        self.ring.pop_front()
    }

    /// Throws the tokens away. What is granted stays, since the other end of the wire may still
    /// send it.
    pub fn clear(&mut self)
        ensures { self.new ≡ incoming_clear self.old }
    {
        self.ring.clear();
    }
}
