//! The tokens that wait in a switch.
ghost use Rattle.std.specs.Prelude.{◌≡◌};
ghost use Rattle.c104_switch.specs.Views.{input_token, output_token};

use super::SwitchOf;
use c104_token::TokenKind;

impl<T: TokenKind> SwitchOf<T> {
    /// The token at this index of the input of a link, from 0 at the first. None past the last one, or where the
    /// link's number is 32 or more.
    pub fn input_token(&self, link: usize, index: usize) -> Option<T>
        ensures { result ≡ input_token self.now link index }
    {
        self.inputs.get(link)?.token(index)
    }

    /// The token at this index of the output of a link, from 0 at the first, which goes out next. None past the last
    /// one, or where the link's number is 32 or more.
    pub fn output_token(&self, link: usize, index: usize) -> Option<T>
        ensures { result ≡ output_token self.now link index }
    {
        self.outputs.get(link)?.get(index)
    }
}
