//! Tokens of which a terminator tells its packet, in eight bytes.
//!
//! What is asked of tokens that arrived are the origins of packets, one for each terminator. So any other token keeps
//! nothing beside itself. Both numbers are small enough for what they are kept in: a plan has at most 256 terminals, and
//! a terminal sends fewer packets in a run than its trace may have entries, which are 2²⁰. So no remainder is taken of
//! any number that comes up.
ghost use Rattle.std.specs.Prelude.{IfOk, ◌<◌, ◌≡◌, ◌≤◌};
ghost use Rattle.c104_node.specs.{Tagged.tagged_origins, TaggedWords.{code_of, token_of_code}};

use crate::origins::Origin;
use c104_token::{NoMemory, Token, TokenKind};
use std::alloc::Global;
use std::marker::Model;

/// The number of an end of packet, one above those of bytes.
const EOP_CODE: u64 = 256;

/// The number of an end of message.
const EOM_CODE: u64 = 257;

/// How many numbers a token or a terminal can be: each has 16 bits of its word.
const PLACES: u64 = 65_536;

/// How many numbers a packet's number can be.
const NUMBERS: usize = 4_294_967_296;

/// A token, and where it is a terminator, its packet's origin: the terminal that sent the packet, modulo 2¹⁶, and the
/// packet's number among those that the terminal sent, from 0, modulo 2³². All other tokens, and those of random headers,
/// have 0 there.
// It is one word, so that a move of it is one load and one store.
#[derive(Clone, Copy, Debug, PartialEq, Eq)]
pub struct TaggedToken {
    // The token's number in bits 0 to 15, the terminal in bits 16 to 31 and the packet's number above them.
    word: u64,
}

impl Model for TaggedToken {
    ghost use Rattle.c104_node.specs.Tagged.{TaggedToken as TheTagged};

    ghost Value = { TheTagged };

    ghost use Rattle.c104_node.specs.TaggedWords.{IsTaggedWord, tagged_of_word, word_back, word_of_tagged};

    ghost view = { tagged_of_word };

    ghost invariant = { IsTaggedWord };

    ghost inverse = { word_of_tagged };

    ghost inverse_ok = { word_back };
}

impl TaggedToken {
    /// A token of a packet of this terminal, which has this number there.
    #[inline(always)]
    fn new(token: Token, terminal: u64, number: u64) -> Self
        requires terminal { terminal < 65536 }
        requires number { number < 4294967296 }
        ensures { result ≡ record { token = token; terminal = terminal; number = number } }
    {
        TaggedToken {
            word: code_of(token) + PLACES * (terminal + PLACES * number),
        }
    }

    /// The terminal that sent the packet, modulo 2¹⁶.
    pub fn terminal(&self) -> usize
        ensures { result ≡ self.now.terminal }
    {
        (self.word / PLACES % PLACES) as usize
    }

    /// The packet's number among those that the terminal sent, from 0, modulo 2³².
    pub fn number(&self) -> usize
        ensures { result ≡ self.now.number }
    {
        (self.word / PLACES / PLACES) as usize
    }
}

/// The number of a token.
#[inline(always)]
fn code_of(token: Token) -> u64
    ensures code { result ≡ code_of token }
    ensures last { result ≤ 257 }
    ensures back { token_of_code result ≡ token }
{
    match token {
        Token::Byte(byte) => u64::from(byte),
        Token::Eop => EOP_CODE,
        Token::Eom => EOM_CODE,
    }
}

impl TokenKind for TaggedToken {
    ghost use Rattle.c104_node.specs.Tagged.{tagged_kind};

    ghost kind = { tagged_kind };

    #[inline(always)]
    fn plain(&self) -> Token {
        let code = self.word % PLACES;
        if code < EOP_CODE {
            return Token::Byte(code as u8);
        }
        if code == EOP_CODE {
            Token::Eop
        } else {
            Token::Eom
        }
    }

    // A plain byte is the word below that of an end of packet: all else in it is 0.
    #[inline(always)]
    fn byte(&self) -> Option<u8> {
        if self.word < EOP_CODE {
            Some(self.word as u8)
        } else {
            None
        }
    }

    #[inline(always)]
    fn random(_place: usize, token: Token) -> Self {
        TaggedToken::new(token, 0, 0)
    }

    #[inline(always)]
    fn sent(terminal: usize, number: usize, _place: usize, token: Token) -> Self {
        match token {
            Token::Byte(_) => TaggedToken::new(token, 0, 0),
            Token::Eop | Token::Eom => {
                TaggedToken::new(token, terminal as u64 % PLACES, (number % NUMBERS) as u64)
            }
        }
    }
}

/// The origins that the terminators among these tokens tell, in order. The only error is out of memory.
pub fn tagged_origins(alloc: Global, tokens: &[TaggedToken]) -> Result<Vec<Origin>, NoMemory>
    ensures { IfOk result (λ list. list.items ≡ tagged_origins tokens.now) }
{
    let mut origins = Vec::new(alloc);
    for token in tokens {
        if let Token::Eop | Token::Eom = token.plain() {
            origins.push(Origin {
                terminal: token.terminal(),
                number: token.number(),
            })?;
        }
    }
    Ok(origins)
}
