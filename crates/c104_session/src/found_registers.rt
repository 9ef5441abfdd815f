//! The registers that the debugger finds: those that don't read as they were loaded, and those of a switch.
//!
//! They are read as `peek` reads one, by no event.
ghost use Rattle.std.specs.Prelude.{IfOk, OnOk, [], slice_get, ◌++◌, ◌∷◌, ◌≡◌};
ghost use Rattle.c104_session.specs.FoundRegisters.{addresses_from, difference, differences_answer, differences_at, differences_from};
ghost use Rattle.c104_session.specs.FoundRegisters.{found_register, is_told, switch_differences, told, told_answer, told_at};

use c104_event::EventFault;
use c104_net::TracedNet;
use c104_plan::{Image, Name, SwitchImage};
use c104_regs::{ADDRESS_END, Address, Register};
use c104_script::{Answer, Finding, FoundRegister};
use c104_token::{Items, NoMemory};
use c104_tools::due_value;
use std::alloc::Global;

/// What a row selects after a reset: the sink.
const RESET_SELECT: u32 = 64;

/// Tells each register that can be set and reads another value than was loaded, by switch and address, or that there is
/// none. The only error is out of memory.
pub(crate) fn answer_differences(
    alloc: Global,
    net: &TracedNet,
    image: &Image,
) -> Result<Answer, NoMemory>
    ensures { IfOk result (λ answer. answer ≡ differences_answer (differences_from net.now.network 0 image.now.settings)) }
{
    let mut list = Vec::new(alloc);
    add_differences(net, image.switches(), &mut list)?;
    if list.is_empty() {
        return Ok(Answer::Found(Finding::Verified));
    }
    Ok(Answer::Found(Finding::Registers(Items::new(list))))
}

/// The differences at the switches of an image join the list.
fn add_differences(
    net: &TracedNet,
    image: &[SwitchImage],
    list: &mut Vec<FoundRegister>,
) -> Result<(), NoMemory>
    ensures { OnOk result (list.new.items ≡ list.old.items ++ differences_from net.now.network 0 image.now) }
{
    for (switch, kept) in image.iter().enumerate() {
        add_switch(net, switch, kept, list)?;
    }
    Ok(())
}

/// The differences at a switch join the list.
fn add_switch(
    net: &TracedNet,
    switch: usize,
    kept: &SwitchImage,
    list: &mut Vec<FoundRegister>,
) -> Result<(), NoMemory>
    ensures { OnOk result (list.new.items ≡ list.old.items
        ++ switch_differences net.now.network switch (slice_get net.now.network.plan.switches switch) kept.now) }
{
    match net.plan().switches().get(switch) {
        Some(name) => add_named(net, switch, name, kept, list),
        None => Ok(()),
    }
}

/// The differences at the switch of this name join the list.
fn add_named(
    net: &TracedNet,
    switch: usize,
    name: &Name,
    kept: &SwitchImage,
    list: &mut Vec<FoundRegister>,
) -> Result<(), NoMemory>
    ensures { OnOk result (list.new.items ≡ list.old.items
        ++ differences_at net.now.network switch name.now kept.now (addresses_from 0)) }
{
    for addr in 0..ADDRESS_END {
        add_difference(
            name,
            addr,
            due_value(kept, addr),
            net.peek(switch, addr),
            list,
        )?;
    }
    Ok(())
}

/// A register where this is due, if anything is, and that reads this joins the list, if that is another value.
fn add_difference(
    name: &Name,
    addr: u16,
    due: Option<u32>,
    value: Option<u32>,
    list: &mut Vec<FoundRegister>,
) -> Result<(), NoMemory>
    ensures { OnOk result (list.new.items ≡ list.old.items ++ difference name.now addr due value) }
{
    match (due, value) {
        (Some(due), Some(value)) if value != due => {
            add_found(name, addr, value, Some(due), list)
        }
        _ => Ok(()),
    }
}

/// A register joins the list.
fn add_found(
    name: &Name,
    addr: u16,
    value: u32,
    loaded: Option<u32>,
    list: &mut Vec<FoundRegister>,
) -> Result<(), NoMemory>
    ensures { OnOk result (list.new.items ≡ list.old.items ++ found_register name.now addr value loaded ∷ []) }
{
    let switch = name.clone()?;
    list.push(FoundRegister {
        switch,
        addr,
        value,
        loaded,
    })?;
    Ok(())
}

/// Tells the registers of a switch, by address. The only error is out of memory.
pub(crate) fn answer_registers(
    alloc: Global,
    net: &TracedNet,
    switch: usize,
) -> Result<Answer, NoMemory>
    ensures { IfOk result (λ answer. answer
        ≡ told_answer net.now.network switch (slice_get net.now.network.plan.switches switch)) }
{
    let Some(name) = net.plan().switches().get(switch) else {
        return Ok(Answer::Refused(EventFault::NoNode));
    };
    let mut list = Vec::new(alloc);
    add_registers(net, switch, name, &mut list)?;
    Ok(Answer::Found(Finding::Registers(Items::new(list))))
}

/// The registers of the switch of this name join the list.
fn add_registers(
    net: &TracedNet,
    switch: usize,
    name: &Name,
    list: &mut Vec<FoundRegister>,
) -> Result<(), NoMemory>
    ensures { OnOk result (list.new.items ≡ list.old.items
        ++ told_at net.now.network switch name.now (addresses_from 0)) }
{
    for addr in 0..ADDRESS_END {
        add_told(name, addr, net.peek(switch, addr), list)?;
    }
    Ok(())
}

/// A register that reads this joins the list, if it is told of.
fn add_told(
    name: &Name,
    addr: u16,
    value: Option<u32>,
    list: &mut Vec<FoundRegister>,
) -> Result<(), NoMemory>
    ensures { OnOk result (list.new.items ≡ list.old.items ++ told name.now addr value) }
{
    match value {
        Some(value) if is_told(Address::at(addr), value) => {
            add_found(name, addr, value, None, list)
        }
        _ => Ok(()),
    }
}

/// Whether a register that reads this is told of: it is one of the switch itself, or it reads another value than after a
/// reset.
fn is_told(address: Option<Address>, value: u32) -> bool
    ensures { result ≡ is_told address value }
{
    match address {
        Some(Address::AtLink(_, Register::Select(_))) => value != RESET_SELECT,
        Some(Address::AtLink(_, _)) => value != 0,
        Some(_) => true,
        None => false,
    }
}
