//! The tokens of an input's buffer.
ghost use Rattle.std.specs.Prelude.{◌≡◌, slice_get};

use super::InputOf;
use c104_token::TokenKind;

impl<T: TokenKind> InputOf<T> {
    /// The token at this index of the buffer, from 0 at the first. None past the last one.
    pub fn token(&self, index: usize) -> Option<T>
        ensures { result ≡ slice_get self.now.buffer.items index }
    {
        self.buffer.get(index)
    }
}
