//! One command through a port, and what its reply tells.
//!
//! A reply is judged by its command's line of the table: a refusal whose number that command can't meet, as any refusal
//! of a reset, is no answer to it, and so a BadReply.
ghost use Rattle.std.specs.Prelude.{Err, Ok, ◌≡◌, ◌≢◌};
ghost use Rattle.c104_tools.specs.{Outcomes.IsTold, Ports.Commanded, Steps.{IsMeant, judged, may_refuse, named_address, told}};
ghost use Rattle.c104_tools.specs.declared.faults.LoadFault.TheVariants as fault;

use crate::faults::LoadFault;
use crate::ports::ControlPort;
use c104_control::{ALREADY_STARTED, Answer, Command, DEVICE_ID, read_reply, write_command};

/// Asks a command of a switch. It gives the value that a peek reads, and 0 of any other command.
pub(crate) fn ask<P: ControlPort>(
    port: &mut P,
    switch: usize,
    command: Command,
) -> Result<u32, LoadFault>
    ensures asked { IsTold (Commanded P.commands P.switch_count P.shown P.unanswered P.due) port.old switch command result port.new }
    ensures known { result ≢ Err fault.NoSwitch }
{
    let reply = port.command(switch, &write_command(&command))?;
    told(switch, command, reply.as_slice())
}

/// What a reply tells of a command of a switch.
fn told(switch: usize, command: Command, reply: &[u8]) -> Result<u32, LoadFault>
    ensures told { result ≡ told switch command (Ok reply.now) }
    ensures meant { IsMeant switch command reply.now result }
{
    judge(switch, command, read_reply(reply))
}

/// What comes of what a switch answered to a command, if it was an answer.
fn judge(switch: usize, command: Command, answer: Option<Answer>) -> Result<u32, LoadFault>
    ensures { result ≡ judged switch command answer }
{
    match (command, answer) {
        (Command::Start, Some(Answer::Started))
        | (Command::Reset, Some(Answer::WasReset))
        | (Command::Identify, Some(Answer::Identity(DEVICE_ID)))
        | (Command::CPoke(_, _), Some(Answer::Poked)) => Ok(0),
        (Command::CPeek(_), Some(Answer::Value(value))) => Ok(value),
        (_, Some(Answer::Refused(number))) if may_refuse(command, number) => {
            Err(LoadFault::Refused(switch, named_address(command), number))
        }
        _ => Err(LoadFault::BadReply(switch)),
    }
}

/// Whether a refusal of this number is an answer to a command.
fn may_refuse(command: Command, number: u8) -> bool
    ensures { result ≡ may_refuse command number }
{
    match command {
        Command::Start => number == ALREADY_STARTED,
        Command::Reset | Command::Identify => false,
        Command::CPeek(_) => number == 3,
        Command::CPoke(_, _) => number == 3 || number == 4 || number == 5 || number == 6,
    }
}

/// The register that a refusal names.
fn named_address(command: Command) -> u16
    ensures { result ≡ named_address command }
{
    match command {
        Command::Start => 0x0001,
        Command::CPeek(addr) | Command::CPoke(addr, _) => addr,
        Command::Reset | Command::Identify => 0x0000,
    }
}
