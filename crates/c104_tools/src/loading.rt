//! The loader.
ghost use Rattle.std.specs.Prelude.{Err, IfErr, MatchResult, Some, length, ◌↔◌, ◌≡◌, ◌≢◌};
ghost use Rattle.c104_tools.specs.{Loaded.{IsLeftBySwitch, IsUnansweredFault, each_with, loaded}, Loads.{for_each, load_list, pokes}};
ghost use Rattle.c104_tools.specs.{Loads.{steps_from, switch_pokes}, Outcomes.{Outcome, any_value, nothing_made}, Ports.Commanded};
ghost use Rattle.c104_tools.specs.Ports.{Switches};
ghost use Rattle.c104_tools.specs.declared.faults.LoadFault.TheVariants as fault;

use crate::commands::ask;
use crate::faults::LoadFault;
use crate::ports::ControlPort;
use c104_control::Command;
use c104_plan::{Image, SwitchImage};

/// Asks a command that reads nothing of each of `count` switches, in order.
fn ask_each<P: ControlPort>(port: &mut P, count: usize, command: Command) -> Result<(), LoadFault>
    ensures asked { Outcome (Commanded P.commands P.switch_count P.shown P.unanswered P.due) any_value nothing_made port.old
        (for_each count command) result port.new }
    ensures known { result ≢ Err fault.NoSwitch }
{
    for switch in 0..count {
        ask(port, switch, command)?;
    }
    Ok(())
}

/// Pokes values into a switch, each at its address.
fn poke_values<P: ControlPort>(
    port: &mut P,
    switch: usize,
    values: &[(u16, u32)],
) -> Result<(), LoadFault>
    ensures asked { Outcome (Commanded P.commands P.switch_count P.shown P.unanswered P.due) any_value nothing_made port.old
        (pokes switch values.now) result port.new }
    ensures known { result ≢ Err fault.NoSwitch }
{
    for entry in values {
        ask(port, switch, Command::CPoke(entry.0, entry.1))?;
    }
    Ok(())
}

/// Pokes what an image keeps into each of its switches.
fn poke_all<P: ControlPort>(port: &mut P, image: &[SwitchImage]) -> Result<(), LoadFault>
    ensures asked { Outcome (Commanded P.commands P.switch_count P.shown P.unanswered P.due) any_value nothing_made port.old
        (steps_from switch_pokes 0 image.now) result port.new }
    ensures known { result ≢ Err fault.NoSwitch }
{
    for (switch, kept) in image.iter().enumerate() {
        poke_values(port, switch, kept.values())?;
    }
    Ok(())
}

/// Loads an image into the switches of a port: each is reset, then all that the image keeps is
/// poked, by switch and by address, and then each is started.
///
/// NoSwitch where the image is of another number of switches; Refused and BadReply where a switch
/// answers so, and Port where the port doesn't answer. Then nothing more is asked, and what was
/// done stays.
pub fn load<P: ControlPort>(port: &mut P, image: &Image) -> Result<(), LoadFault>
    ensures unfitting { (result ≡ Err fault.NoSwitch) ↔ (P.switch_count port.old ≢ length image.now.settings) }
    ensures not_asked { P.switch_count port.old ≢ length image.now.settings → port.new ≡ port.old }
    ensures asked { P.switch_count port.old ≡ length image.now.settings →
        Outcome (Commanded P.commands P.switch_count P.shown P.unanswered P.due) any_value nothing_made port.old
        (load_list image.now.settings) result port.new }

    // So where it is known what is given for each command, it is known what comes of all.
    ensures due { P.switch_count port.old ≡ length image.now.settings →
        Outcome P.due any_value nothing_made port.old (load_list image.now.settings) result port.new }

    // Where the port doesn't answer, it is for a command of a switch that it has.
    ensures left { P.switch_count port.old ≡ length image.now.settings →
        IfErr result (IsLeftBySwitch P.switch_count P.unanswered (length image.now.settings)) }

    // Switches that are shown are loaded, and they refuse nothing.
    ensures loaded { (before : Switches) → P.shown port.old ≡ Some before →
        P.switch_count port.old ≡ length image.now.settings →
        MatchResult result
        (λ _. P.shown port.new ≡ Some (each_with loaded before image.now.settings))
        IsUnansweredFault }
{
    let count = port.switches();
    let kept = image.switches();
    if count != kept.len() {
        return Err(LoadFault::NoSwitch);
    }
    ask_each(port, count, Command::Reset)?;
    poke_all(port, kept)?;
    ask_each(port, count, Command::Start)
}
