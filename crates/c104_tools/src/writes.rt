//! Setting a register.
ghost use Rattle.std.specs.Prelude.{Err, [], ◌<◌, ◌↔◌, ◌∷◌, ◌≡◌, ◌≤◌};
ghost use Rattle.c104_tools.specs.{Loads.pokes, Outcomes.{Outcome, any_value, nothing_made}, Ports.Commanded};
ghost use Rattle.c104_tools.specs.declared.faults.LoadFault.TheVariants as fault;

use crate::commands::ask;
use crate::faults::LoadFault;
use crate::ports::ControlPort;
use c104_control::Command;

/// Sets the register of a switch at this address, by one poke.
///
/// NoSwitch where the port has no such switch; Refused where it refuses the poke, BadReply where its
/// reply answers no poke, and Port where the port doesn't answer.
pub fn write_register<P: ControlPort>(
    port: &mut P,
    switch: usize,
    addr: u16,
    value: u32,
) -> Result<(), LoadFault>
    ensures unknown { (result ≡ Err fault.NoSwitch) ↔ (P.switch_count port.old ≤ switch) }
    ensures not_asked { P.switch_count port.old ≤ switch → port.new ≡ port.old }
    ensures asked { switch < P.switch_count port.old →
        Outcome (Commanded P.commands P.switch_count P.shown P.unanswered P.due) any_value nothing_made port.old
        (pokes switch ((addr, value) ∷ [])) result port.new }
    ensures due { switch < P.switch_count port.old →
        Outcome P.due any_value nothing_made port.old (pokes switch ((addr, value) ∷ [])) result port.new }
{
    if switch >= port.switches() {
        return Err(LoadFault::NoSwitch);
    }
    ask(port, switch, Command::CPoke(addr, value))?;
    Ok(())
}
