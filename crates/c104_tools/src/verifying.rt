//! The comparison of switches with an image.
//!
//! A comparison reads every register that can be written, and not those alone that the image keeps: else a stale row
//! would stay unseen.
ghost use Rattle.std.specs.Prelude.{Err, length, ◌↔◌, ◌≡◌, ◌≢◌};
ghost use Rattle.c104_tools.specs.{Loads.{due_entry, due_value, peeks, steps_from, switch_peeks, verify_list}, Outcomes.Outcome};
ghost use Rattle.c104_tools.specs.{Outcomes.{due_value_only, nothing_made}, Ports.Commanded};
ghost use Rattle.c104_tools.specs.declared.faults.LoadFault.TheVariants as fault;

use crate::commands::ask;
use crate::faults::LoadFault;
use crate::ports::ControlPort;
use c104_control::Command;
use c104_plan::{Image, SwitchImage};
use c104_regs::{ADDRESS_END, Address};

/// What an address is to read, where it can be written, at a switch with this image.
pub fn due_value(kept: &SwitchImage, addr: u16) -> Option<u32>
    ensures { result ≡ due_value kept.now addr }
{
    let address = Address::at(addr)?;
    if !address.is_writable() {
        return None;
    }
    kept.registers().peek(addr).ok()
}

/// Reads every register of a switch that can be written, and compares it with the image.
fn verify_switch<P: ControlPort>(
    port: &mut P,
    switch: usize,
    kept: &SwitchImage,
) -> Result<(), LoadFault>
    ensures asked { Outcome (Commanded P.commands P.switch_count P.shown P.unanswered P.due) due_value_only nothing_made port.old
        (switch_peeks switch kept.now) result port.new }
    ensures known { result ≢ Err fault.NoSwitch }
{
    for addr in 0..ADDRESS_END {
        compare(port, switch, addr, due_value(kept, addr))?;
    }
    Ok(())
}

/// Reads a register and compares it with what is due there, if anything is.
fn compare<P: ControlPort>(
    port: &mut P,
    switch: usize,
    addr: u16,
    due: Option<u32>,
) -> Result<(), LoadFault>
    ensures asked { Outcome (Commanded P.commands P.switch_count P.shown P.unanswered P.due) due_value_only nothing_made port.old
        (peeks switch (due_entry addr due)) result port.new }
    ensures known { result ≢ Err fault.NoSwitch }
{
    let Some(due) = due else {
        return Ok(());
    };
    let found = ask(port, switch, Command::CPeek(addr))?;
    if found != due {
        return Err(LoadFault::Differs(switch, addr, found));
    }
    Ok(())
}

/// Sees whether an image is loaded: reads every register that can be written, by switch and address,
/// and compares it with the image or, where that keeps nothing, with its value after a reset.
///
/// NoSwitch where the image is of another number of switches; Differs of the first register that
/// reads another value; Refused and BadReply where a switch answers so, and Port where the port
/// doesn't answer. Nothing is read after that.
pub fn verify<P: ControlPort>(port: &mut P, image: &Image) -> Result<(), LoadFault>
    ensures unfitting { (result ≡ Err fault.NoSwitch) ↔ (P.switch_count port.old ≢ length image.now.settings) }
    ensures not_asked { P.switch_count port.old ≢ length image.now.settings → port.new ≡ port.old }
    ensures asked { P.switch_count port.old ≡ length image.now.settings →
        Outcome (Commanded P.commands P.switch_count P.shown P.unanswered P.due) due_value_only nothing_made port.old
        (verify_list image.now.settings) result port.new }
    ensures due { P.switch_count port.old ≡ length image.now.settings →
        Outcome P.due due_value_only nothing_made port.old (verify_list image.now.settings) result port.new }
{
    let kept = image.switches();
    if port.switches() != kept.len() {
        return Err(LoadFault::NoSwitch);
    }
    verify_all(port, kept)
}

/// The same of these switches of an image.
fn verify_all<P: ControlPort>(port: &mut P, image: &[SwitchImage]) -> Result<(), LoadFault>
    ensures asked { Outcome (Commanded P.commands P.switch_count P.shown P.unanswered P.due) due_value_only nothing_made port.old
        (steps_from switch_peeks 0 image.now) result port.new }
    ensures known { result ≢ Err fault.NoSwitch }
{
    for (switch, kept) in image.iter().enumerate() {
        verify_switch(port, switch, kept)?;
    }
    Ok(())
}
