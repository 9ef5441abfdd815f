//! Control commands.
//!
//! A command isn't inlined where an act is: its banks of registers would give every act a stack of 40 KB, which is probed
//! each time.
ghost use Rattle.std.specs.Prelude.{◌≡◌};
ghost use Rattle.{c104_control.specs.Table.IsAnswerTo, c104_switch.specs.Control.{switch_control, switch_obey}};

use super::SwitchOf;
use c104_control::{
    ALREADY_STARTED, Answer, Command, ControlBytes, DEVICE_ID, read_command, write_reply,
};
use c104_token::TokenKind;

impl<T: TokenKind> SwitchOf<T> {
    /// Does what a control command says, and gives the bytes of the reply. Where the bytes are no
    /// command, or the command is refused, the reply says why and nothing has changed.
    // A command takes the stack of a whole bank of registers, which no other action is to pay for.
    #[inline(never)]
    pub fn control(&mut self, bytes: &[u8]) -> ControlBytes
        ensures { (result, self.new) ≡ switch_control self.old bytes.now }
    {
        let answer = match read_command(bytes) {
            Ok(command) => self.obey(command),
            Err(fault) => Answer::Refused(fault.number()),
        };
        write_reply(&answer)
    }

    /// Does a command, and answers it as the table says.
    fn obey(&mut self, command: Command) -> Answer
        ensures obeyed { (result, self.new) ≡ switch_obey self.old command }
        ensures answer { IsAnswerTo command result }
    {
        match command {
            Command::Start => {
                if self.started() {
                    return Answer::Refused(ALREADY_STARTED);
                }
                self.start();
                Answer::Started
            }
            Command::Reset => {
                self.reset();
                Answer::WasReset
            }
            Command::Identify => Answer::Identity(DEVICE_ID),
            Command::CPeek(addr) => match self.peek(addr) {
                Ok(value) => Answer::Value(value),
                Err(fault) => Answer::Refused(fault.number()),
            },
            Command::CPoke(addr, value) => match self.poke(addr, value) {
                Ok(()) => Answer::Poked,
                Err(fault) => Answer::Refused(fault.number()),
            },
        }
    }
}
