//! A network takes commands, whatever its nodes keep of what they do.
ghost use Rattle.std.specs.Prelude.{◌≡◌};
ghost use Rattle.c104_switch.specs.declared.actions.ReplyOf.TheVariants as reply;
ghost use Rattle.c104_tools.specs.NetCommands.{IsControlReply};

use crate::ports::ControlPort;
use c104_control::ControlBytes;
use c104_event::{Event, EventFault};
use c104_run::{RecordedNet, RecordedPlace};
use c104_switch::Reply;
use c104_token::TokenKind;

/// Its commands are those that the traces of its switches keep, in the order of their tickets: so the
/// start of a run forgets them. It shows its switches. A command isn't answered where there is no such
/// switch, where the switch's trace is full, or when out of memory. A `TracedNet` keeps no trace: its commands are
/// those of the network that it is in contracts.
impl<T: TokenKind, P: RecordedPlace<T>> ControlPort for RecordedNet<T, P> {
    ghost use Rattle.c104_tools.specs.{NetCommands.{IsNetUnanswered, net_commands, net_switch_count, net_switches}, NetOutcomes.MayGive};

    ghost commands = { λ net. net_commands net };

    ghost switch_count = { λ net. net_switch_count net };

    ghost shown = { λ net. net_switches net };

    ghost unanswered = { λ net. IsNetUnanswered net };

    ghost due = { λ net switch bytes given after. MayGive net switch bytes given after };

    fn switches(&self) -> usize {
        self.told_plan().switches().len()
    }

    fn command(&mut self, switch: usize, bytes: &ControlBytes) -> Result<ControlBytes, EventFault> {
        // The proof reads what a network with its record keeps, before and after.
        let _plan = self.told_plan();
        let event = Event::Control {
            switch,
            bytes: ControlBytes::new(bytes.as_slice()),
        };
        let answer = self.apply(&event);
        let _plan = self.told_plan();
        let reply = answer?;
        Ok(control_bytes(reply))
    }
}

/// The bytes of a switch's reply.
fn control_bytes(answer: Reply) -> ControlBytes
    requires { IsControlReply answer }
    ensures { answer ≡ reply.Control result }
{
    match answer {
        Reply::Control(bytes) => bytes,
        Reply::Done | Reply::NotReady | Reply::Token(_) => unreachable!(),
    }
}
