//! The commands of a description that is read: of each is said with what status it ends, and what standard output took
//! by then.
ghost use Rattle.c104.specs.Described.{DescriptionEnds, PrintsTask};
ghost use Rattle.c104_commands.specs.LeftRows.{PrintsLeft, names_of};

use c104_commands::{
    boot_script_command, check_command, cycles_command, header_rows_command, label_command,
    label_names_command, label_rows_command, rows_without_command,
};
use c104_host::Recorded;
use c104_mistakes::Messages;
use c104_setup::Status;
use std::alloc::Global;
use std::io::Write;

/// What is printed of a description's network.
#[derive(Clone, Copy)]
pub enum DescriptionTask {
    /// Whether its labels are accepted.
    Check,
    /// Where this header may come.
    Header(u32),
    /// Whether its channels depend on one another in a cycle, and before that each dependency, if it is so.
    Cycles(bool),
    /// Its labels, by the addresses of registers and their values.
    Labels,
    /// The same by the names of registers.
    LabelNames,
    /// Its labels as a description by `row` lines.
    LabelRows,
    /// Its labels as a script of control commands.
    BootScript,
}

/// Prints what is asked for.
#[tactic(auto, using(crate::proofs::EndedCommands::described))]
pub fn describe_text<W: Write + Drop, M: Messages>(
    alloc: Global,
    task: DescriptionTask,
    mut description: &[u8],
    output: &mut Recorded<W>,
    messages: &mut M,
) -> Status
    ensures { DescriptionEnds (PrintsTask task) description.now output.old output.new result }
{
    let description = &mut description;
    match task {
        DescriptionTask::Check => check_command(alloc, description, output, messages),
        DescriptionTask::Header(header) => {
            header_rows_command(alloc, header, description, output, messages)
        }
        DescriptionTask::Cycles(all) => cycles_command(alloc, description, all, output, messages),
        DescriptionTask::Labels => label_command(alloc, description, output, messages),
        DescriptionTask::LabelNames => label_names_command(alloc, description, output, messages),
        DescriptionTask::LabelRows => label_rows_command(alloc, description, output, messages),
        DescriptionTask::BootScript => boot_script_command(alloc, description, output, messages),
    }
}

/// Prints the labels as a description of what is left of the network without the wires at these ports.
#[tactic(auto, using(crate::proofs::EndedCommands::described))]
pub fn describe_left<W: Write + Drop, M: Messages>(
    alloc: Global,
    ports: &[&str],
    mut description: &[u8],
    output: &mut Recorded<W>,
    messages: &mut M,
) -> Status
    ensures { DescriptionEnds (PrintsLeft (names_of ports.now)) description.now output.old output.new result }
{
    rows_without_command(alloc, ports, &mut description, output, messages)
}
