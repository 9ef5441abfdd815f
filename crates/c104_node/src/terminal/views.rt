//! What can be seen of a terminal.
ghost use Rattle.std.specs.Prelude.{◌≡◌};
ghost use Rattle.{c104_node.specs.Views.terminal_view, c104_switch.specs.Rooms.room_left};

use super::TerminalOf;
use c104_token::TokenKind;

/// What can be seen of a terminal and its end of the wire.
#[derive(Clone, Copy, Debug, PartialEq, Eq)]
pub struct TerminalView {
    /// How many tokens wait to go out.
    pub waiting: usize,
    /// How many tokens came in and have yet to arrive, 0 to 64.
    pub undrained: usize,
    /// How many tokens may go out, 0 to 64.
    pub credit: usize,
    /// How many more tokens may come in, 0 to 64.
    pub granted: usize,
}

impl<T: TokenKind> TerminalOf<T> {
    /// How many more tokens the terminal could grant, 0 to 64.
    pub fn room(&self) -> usize
        ensures { result ≡ room_left self.now.input }
    {
        self.input.cap() - (self.input.len() + self.input.granted())
    }

    /// What can be seen of the terminal.
    pub fn view(&self) -> TerminalView
        ensures { result ≡ terminal_view self.now }
    {
        TerminalView {
            waiting: self.waiting,
            undrained: self.input.len(),
            credit: self.credit,
            granted: self.input.granted(),
        }
    }
}
