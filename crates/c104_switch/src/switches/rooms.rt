//! How much room the inputs of a switch have.
ghost use Rattle.std.specs.Prelude.{◌≡◌};
ghost use Rattle.c104_switch.specs.Rooms.{link_room};

use super::SwitchOf;
use c104_token::TokenKind;

impl<T: TokenKind> SwitchOf<T> {
    /// How many more tokens the input of a link could grant, 0 to 64. None where the link's number is 32 or more.
    pub fn room(&self, link: usize) -> Option<usize>
        ensures { result ≡ link_room self.now link }
    {
        let input = self.inputs.get(link)?;
        Some(input.cap() - (input.level() + input.granted()))
    }
}
