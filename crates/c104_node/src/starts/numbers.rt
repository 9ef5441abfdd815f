//! Where a node starts, as a list of numbers.
ghost use Rattle.std.specs.{List.flat_map, Prelude.{All, IfOk, OnOk, length, ◌++◌, ◌≡◌}};
ghost use Rattle.c104_node.specs.StartNumbers.{link_start_numbers, start_numbers, written_value, written_values};
ghost use Rattle.{c104_regs.specs.{Values.bit_value, declared.registers.TheConstants.LINKS}, c104_switch.specs.Starts.IsLinkStart};
ghost use Rattle.c104_node.specs.declared.starts.NodeStart.TheVariants as start;

use super::NodeStart;
use c104_regs::{ADDRESS_END, Address, PackedSettings, Status};
use c104_switch::{LinkStart, SwitchStart};
use c104_token::NoMemory;
use std::alloc::Global;

impl NodeStart {
    /// The start as numbers: of a switch 1 or 0 as it is started or not, its writable registers by address, and then
    /// Sunk, Short, credit and granted link by link; of a terminal credit and granted. The only error is out of memory.
    pub fn numbers(&self, alloc: Global) -> Result<Vec<u32>, NoMemory>
        ensures { IfOk result (λ list. list.items ≡ start_numbers self.now) }
    {
        match self {
            NodeStart::Switch(start) => switch_numbers(alloc, start),
            NodeStart::Terminal(start) => {
                let mut list = Vec::with_capacity(alloc, 2)?;
                list.push_reserved(start.credit());
                list.push_reserved(start.granted());
                Ok(list)
            }
        }
    }
}

/// The start of a switch as numbers. The only error is out of memory.
fn switch_numbers(alloc: Global, switch: &SwitchStart) -> Result<Vec<u32>, NoMemory>
    ensures { IfOk result (λ list. list.items ≡ start_numbers (start.Switch switch.now)) }
{
    let registers = switch.registers();
    let mut list = Vec::new(alloc);
    list.push(number(registers.started(), 1))?;
    add_written(registers.all_settings(), &mut list)?;
    add_links(switch.links(), &mut list)?;
    Ok(list)
}

/// The weight of a bit where it is set, and else 0.
fn number(bit: bool, weight: u32) -> u32
    ensures { result ≡ bit_value bit weight }
{
    if bit { weight } else { 0 }
}

/// The writable registers join a list, by address. The only error is out of memory.
fn add_written(settings: &[PackedSettings], list: &mut Vec<u32>) -> Result<(), NoMemory>
    requires { length settings.now ≡ LINKS }
    ensures { OnOk result (list.new.items ≡ list.old.items ++ written_values settings.now) }
{
    for addr in 0..ADDRESS_END {
        if let Some(value) = written_value(settings, addr) {
            list.push(value)?;
        }
    }
    Ok(())
}

/// What the register at an address reads, where it can be written.
fn written_value(settings: &[PackedSettings], addr: u16) -> Option<u32>
    requires { length settings.now ≡ LINKS }
    ensures { result ≡ written_value settings.now addr }
{
    match Address::at(addr) {
        Some(Address::AtLink(link, register)) => {
            if register.is_writable() {
                Some(register.read(&settings[link], &Status::reset()))
            } else {
                None
            }
        }
        _ => None,
    }
}

/// The numbers of links join a list, link by link. The only error is out of memory.
fn add_links(links: &[LinkStart], list: &mut Vec<u32>) -> Result<(), NoMemory>
    requires { All IsLinkStart links.now }
    ensures { OnOk result (list.new.items ≡ list.old.items ++ flat_map link_start_numbers links.now) }
{
    for link in links {
        add_link(link, list)?;
    }
    Ok(())
}

/// The numbers of a link join a list. The only error is out of memory.
fn add_link(link: &LinkStart, list: &mut Vec<u32>) -> Result<(), NoMemory>
    requires { IsLinkStart link.now }
    ensures { OnOk result (list.new.items ≡ list.old.items ++ link_start_numbers link.now) }
{
    list.reserve(4)?;
    list.push_reserved(link.sunk);
    list.push_reserved(link.short);
    list.push_reserved(link.credit as u32);
    list.push_reserved(link.granted as u32);
    Ok(())
}
