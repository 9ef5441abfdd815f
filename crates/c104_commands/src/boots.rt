//! The control commands that load and start a network, as data.
ghost use Rattle.std.specs.Prelude.{IfOk, OnOk, map, ◌++◌, ◌≡◌};
ghost use Rattle.c104_commands.specs.Boots.{boot_commands, switch_command};
ghost use Rattle.c104_tools.specs.Loads.{for_each, order, pokes, steps_from, switch_pokes};

use c104_control::{Command, ControlBytes, write_command};
use c104_plan::{Image, SwitchImage};
use c104_token::NoMemory;
use std::alloc::{AllocError, Global};

/// A control command for a switch.
#[derive(Drop)]
pub struct SwitchCommand {
    /// The number of the switch.
    pub switch: usize,
    /// The bytes of the command.
    pub bytes: ControlBytes,
}

impl SwitchCommand {
    /// A command for the switch of this number.
    fn new(switch: usize, command: Command) -> Self
        ensures { result ≡ switch_command (order switch command) }
    {
        SwitchCommand {
            switch,
            bytes: write_command(&command),
        }
    }
}

/// The commands that load an image into the switches of a network and start them, just those of the loader, in its
/// order: each switch is reset, then each value that isn't that after a reset is poked, by switch and by address, and then
/// each switch is started. The only error is out of memory.
pub fn boot_commands(alloc: Global, image: &Image) -> Result<Vec<SwitchCommand>, NoMemory>
    ensures { IfOk result (λ commands. commands.items ≡ boot_commands image.now) }
{
    let switches = image.switches();
    let mut commands = Vec::new(alloc);
    add_for_each(&mut commands, switches.len(), Command::Reset)?;
    add_all_pokes(&mut commands, switches)?;
    add_for_each(&mut commands, switches.len(), Command::Start)?;
    Ok(commands)
}

/// A command for each of `count` switches joins the commands.
fn add_for_each(
    commands: &mut Vec<SwitchCommand>,
    count: usize,
    command: Command,
) -> Result<(), AllocError>
    ensures { OnOk result (commands.new.items ≡
        commands.old.items ++ map switch_command (for_each count command)) }
{
    for switch in 0..count {
        commands.push(SwitchCommand::new(switch, command))?;
    }
    Ok(())
}

/// The pokes of what is kept of each switch join the commands.
fn add_all_pokes(
    commands: &mut Vec<SwitchCommand>,
    switches: &[SwitchImage],
) -> Result<(), AllocError>
    ensures { OnOk result (commands.new.items ≡
        commands.old.items ++ map switch_command (steps_from switch_pokes 0 switches.now)) }
{
    for (switch, kept) in switches.iter().enumerate() {
        add_pokes(commands, switch, kept.values())?;
    }
    Ok(())
}

/// The pokes of values into a switch, each at its address, join the commands.
fn add_pokes(
    commands: &mut Vec<SwitchCommand>,
    switch: usize,
    values: &[(u16, u32)],
) -> Result<(), AllocError>
    ensures { OnOk result (commands.new.items ≡
        commands.old.items ++ map switch_command (pokes switch values.now)) }
{
    for value in values {
        commands.push(SwitchCommand::new(switch, Command::CPoke(value.0, value.1)))?;
    }
    Ok(())
}
