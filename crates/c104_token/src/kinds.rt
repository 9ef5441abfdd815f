ghost use Rattle.std.specs.Prelude.{◌≡◌, IfSome};

use crate::tokens::Token;

/// A kind of token that a switch or a network can carry: a plain token, or one that also tells
/// where it came from. The machine reads nothing but the plain token.
pub trait TokenKind: Copy + Drop {
    ghost use Rattle.c104_token.specs.Kinds.{Kind, byte_token};

    ghost kind: { Kind Self };

    /// The token itself.
    fn plain(&self) -> Token
        ensures { result ≡ kind.plain self.now };

    /// The byte of a token that is a byte and tells nothing else: it is the first of a random header. None of any
    /// other.
    fn byte(&self) -> Option<u8>
        ensures byte { result ≡ kind.byte self.now }
        ensures told { IfSome result (λ byte. self.now ≡ byte_token kind byte) };

    /// The token at a place of a random header, counted from 0, which no terminal has sent.
    fn random(place: usize, token: Token) -> Self
        ensures { result ≡ kind.random place token };

    /// The token at a place of a packet, counted from 0. The packet has this number, from 0,
    /// among those that the terminal sent.
    fn sent(terminal: usize, number: usize, place: usize, token: Token) -> Self
        ensures { result ≡ kind.sent terminal number place token };
}

impl TokenKind for Token {
    ghost use Rattle.c104_token.specs.Kinds.{plain_kind};

    ghost kind = { plain_kind };

    fn plain(&self) -> Token {
        *self
    }

    #[inline(always)]
    fn byte(&self) -> Option<u8> {
        match *self {
            Token::Byte(byte) => Some(byte),
            Token::Eop | Token::Eom => None,
        }
    }

    fn random(_place: usize, token: Token) -> Token {
        token
    }

    fn sent(_terminal: usize, _number: usize, _place: usize, token: Token) -> Token {
        token
    }
}
