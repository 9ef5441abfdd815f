//! The header of a packet that an input reads: its tokens, and the number that they say.
ghost use Rattle.std.specs.Prelude.{All, IfOk, [], length, map, ◌++◌, ◌+◌, ◌<◌, ◌∷◌, ◌≡◌, ◌≤◌};
ghost use Rattle.c104_switch.specs.{Headers.{header_number, header_value}, declared.header.TheConstants.HEADER_LIMIT};
ghost use Rattle.c104_token.specs.Tokens.{byte_of};

use arrayvec::ArrayVec;
use c104_token::{NoMemory, Token, TokenKind};
use std::alloc::Global;
use std::marker::Model;

/// The most tokens of a header.
pub const HEADER_LIMIT: usize = 2;

/// The bytes of a header, low byte first: at most two.
#[derive(Debug, Drop)]
pub struct HeaderBytes {
    bytes: ArrayVec<u8, HEADER_LIMIT>,
}

impl Model for HeaderBytes {
    ghost use Rattle.std.specs.Prelude.{List, ℕ};

    ghost Value = { List ℕ };

    ghost view = { λ header. header.bytes.items };
}

impl HeaderBytes {
    /// The bytes, low byte first: at most two, each of which is below 256.
    pub fn as_slice(&self) -> &[u8]
        ensures value { result.now ≡ self.now }
        ensures few { length self.now ≤ HEADER_LIMIT }
        ensures range { All (λ byte. byte < 256) self.now }
    {
        // The proof reads the range of the lent slice by this name.
        let slice = self.bytes.as_slice();
        slice
    }

    /// The number that the bytes say, 0 to 65,535.
    pub fn value(&self) -> u32
        ensures { result ≡ header_number self.now }
    {
        match self.bytes.as_slice() {
            [] => 0,
            [only] => u32::from(*only),
            [low, high, ..] => u32::from(*low) + 256 * u32::from(*high),
        }
    }
}

/// The tokens of a header that an input has read. Room for two is kept, so that reading takes no
/// memory.
// The tokens lie beside a phase of nothing (`Phase<()>`): a phase that held them would have a size that depends on the
// token's type, and such a value can't be lent. Contracts see both as one, `Phase (List A)`.
#[derive(Drop)]
pub struct HeaderOf<T: TokenKind> {
    tokens: Vec<T>,
}

impl<T: TokenKind> Model for HeaderOf<T> {
    ghost use Rattle.std.specs.{Prelude.{List, length, vec_len, ◌≤◌}, Vec.vec_capacity};

    ghost Value = { List T };

    ghost view = { λ header. header.tokens.items };

    ghost use Rattle.c104_switch.specs.declared.header.TheConstants.{HEADER_LIMIT};

    ghost invariant = { λ header.
        (vec_len header.tokens ≤ HEADER_LIMIT) × (HEADER_LIMIT ≤ vec_capacity header.tokens) };
}

impl<T: TokenKind> HeaderOf<T> {
    /// No tokens yet. It fails only when out of memory.
    pub fn new(alloc: Global) -> Result<Self, NoMemory>
        ensures { IfOk result (λ header. header ≡ []) }
    {
        let tokens = Vec::with_capacity(alloc, HEADER_LIMIT)?;
        Ok(HeaderOf { tokens })
    }

    /// How many tokens were read: at most two.
    pub fn len(&self) -> usize
        ensures len { result ≡ length self.now }
        ensures within { length self.now ≤ HEADER_LIMIT }
    {
        self.tokens.len()
    }

    /// The tokens that were read.
    pub fn as_slice(&self) -> &[T]
        ensures { result.now ≡ self.now }
    {
        self.tokens.as_slice()
    }

    /// Forgets the tokens.
    pub fn clear(&mut self)
        ensures { self.new ≡ [] }
    {
        self.tokens.clear();
    }

    /// Reads one more token.
    pub fn push(&mut self, token: T)
        requires { length self.old < HEADER_LIMIT }
        ensures { self.new ≡ self.old ++ token ∷ [] }
    {
        let Ok(()) = self.tokens.push(token) else {
            unreachable!();
        };
    }

    /// The bytes of the tokens. A terminator, which no header has, would count as 0.
    pub fn bytes(&self) -> HeaderBytes
        ensures { result ≡ map (λ token. byte_of (T.kind.plain token)) self.now }
    {
        let mut bytes = ArrayVec::new();
        for token in self.tokens.as_slice() {
            bytes.push(byte_of(token.plain()));
        }
        HeaderBytes { bytes }
    }

    /// The number that the tokens say, 0 to 65,535.
    pub fn value(&self) -> u32
        ensures { result ≡ header_value T.kind self.now }
    {
        self.bytes().value()
    }
}

/// The number that a byte stands for, and 0 for a terminator.
fn byte_of(token: Token) -> u8
    ensures { result ≡ byte_of token }
{
    match token {
        Token::Byte(byte) => byte,
        Token::Eop | Token::Eom => 0,
    }
}
