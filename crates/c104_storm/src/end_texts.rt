//! The texts of a storm's end.
ghost use Rattle.std.specs.Prelude.{IfOk, OnOk, ◌++◌, ◌≡◌};
ghost use Rattle.c104_storm.specs.{Endings.{IsEndText, IsRunText}, Texts.stop_line};

use crate::endings::Ending;
use crate::packets::add_sorted;
use c104_event::EventFault;
use c104_net::TracedNet;
use c104_script::add_number;
use c104_stream::too_long_line;
use c104_token::NoMemory;
use std::alloc::Global;

/// What is written of an ending, of a script that is too long or isn't. The only error is out of memory.
pub(crate) fn end_text(
    alloc: Global,
    net: &TracedNet,
    ending: Ending,
    is_long: bool,
) -> Result<Vec<u8>, NoMemory>
    ensures { IfOk result (λ text. IsEndText is_long net.now ending text.items) }
{
    let mut text = Vec::new(alloc);
    match ending {
        Ending::NotQuiet => text.extend_from_slice(b"not quiet\n")?,
        Ending::Stopped(worker, fault) => add_stop(worker, fault, &mut text)?,
        Ending::Quiet => return run_text(alloc, net, is_long),
    }
    Ok(text)
}

/// That what was done is one run, and then the packets that arrived, or that the script is too long. The only error is
/// out of memory.
fn run_text(alloc: Global, net: &TracedNet, is_long: bool) -> Result<Vec<u8>, NoMemory>
    ensures { IfOk result (λ text. IsRunText is_long net.now text.items) }
{
    let mut text = Vec::new(alloc);
    text.extend_from_slice(b"audit ok\n")?;
    if is_long {
        text.extend_from_slice(too_long_line())?;
        return Ok(text);
    }
    add_sorted(alloc, net, &mut text)?;
    Ok(text)
}

/// Which worker stopped joins the text, and for what.
fn add_stop(worker: usize, fault: EventFault, text: &mut Vec<u8>) -> Result<(), NoMemory>
    ensures { OnOk result (text.new.items ≡ text.old.items ++ stop_line worker fault) }
{
    text.extend_from_slice(b"worker ")?;
    add_number(worker, text)?;
    text.push(b' ')?;
    add_number(usize::from(fault.number()), text)?;
    text.push(b' ')?;
    text.extend_from_slice(fault.name().as_bytes())?;
    text.push(b'\n')?;
    Ok(())
}
