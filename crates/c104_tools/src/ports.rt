//! What takes control commands for switches.
ghost use Rattle.std.specs.Prelude.{List, MatchOption, MatchResult, Option, [], length, ℕ, ◌++◌, ◌∷◌, ◌≡◌};
ghost use Rattle.{c104_event.specs.declared.faults.EventFault.EventFault as TheFault, c104_tools.specs.Ports.{Obeyed, Switches}};
ghost use Rattle.c104_tools.specs.{Ports.command_asked, Steps.Given, declared.ports.Asked.Asked as TheAsked};

use c104_control::ControlBytes;
use c104_event::EventFault;

/// A control command that was asked of a switch and answered.
#[derive(Debug, Drop)]
pub struct Asked {
    /// The number of the switch.
    pub switch: usize,
    /// The bytes of the command.
    pub command: ControlBytes,
    /// The bytes of the reply. Where they are a refusal, nothing has changed.
    pub reply: ControlBytes,
}

/// What takes control commands for the switches of a network, by their numbers.
pub trait ControlPort {
    /// The commands that were asked and answered, in order.
    ghost commands: { Self → List TheAsked };

    /// How many switches there are.
    ghost switch_count: { Self → ℕ };

    /// The switches, if the port shows them: then it answers as these do.
    ghost shown: { Self → Option Switches };

    /// A port in this state may answer this command of a switch with this fault, and not with a
    /// reply.
    ghost unanswered: { Self → ℕ → List ℕ → TheFault → Type 0 };

    /// A port in this state may give this reply or fault for a command of a switch, and be in that state
    /// afterwards.
    ghost due: { Self → ℕ → List ℕ → Given → Self → Type 0 };

    /// How many switches there are. They have the numbers from 0 on.
    fn switches(&self) -> usize
        ensures count { result ≡ switch_count self.now }
        ensures shown { MatchOption (shown self.now) (Unit {0}) (λ switches. length switches ≡ switch_count self.now) };

    /// Hands a command to a switch, and gives its reply. Where there is none, nothing was asked.
    fn command(&mut self, switch: usize, bytes: &ControlBytes) -> Result<ControlBytes, EventFault>
        ensures commands { MatchResult result
            (λ reply. commands self.new ≡ commands self.old ++ command_asked switch bytes.now reply ∷ [])
            (λ _. commands self.new ≡ commands self.old) }
        ensures fault { MatchResult result (λ _. Unit {0}) (λ e. unanswered self.old switch bytes.now e) }
        ensures shown { MatchResult result
            (λ reply. Obeyed (shown self.old) (command_asked switch bytes.now reply ∷ []) (shown self.new))
            (λ _. shown self.new ≡ shown self.old) }
        ensures due { due self.old switch bytes.now result self.new }
        ensures count { switch_count self.new ≡ switch_count self.old };
}
