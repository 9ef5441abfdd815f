//! What passes over a wire.

use c104_token::Token;

/// What goes out at one end of a wire and comes in at the other: a token, or a grant of eight more.
#[derive(Clone, Copy, Debug, PartialEq, Eq)]
pub enum Carried {
    Token(Token),
    Grant,
}
