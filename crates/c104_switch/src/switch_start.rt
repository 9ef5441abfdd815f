//! Where a switch starts, as plain data.
ghost use Rattle.std.specs.{Prelude.{IfOk, false, length, replicate, true, ◌≡◌, ◌≤◌}, Vec.vec_capacity};
ghost use Rattle.{c104_link.specs.Buffers.IsValidCap, c104_regs.specs.{Settings.reset_settings, declared.registers.TheConstants.LINKS}};
ghost use Rattle.c104_switch.specs.{Soundness.IsSound, Starts.{IsSwitchStart, link_starts, new_link, new_start}};

use crate::LINKS;
use crate::inputs::InputsOf;
use crate::link_start::LinkStart;
use crate::outputs::OutputsOf;
use c104_regs::Registers;
use c104_token::{NoMemory, TokenKind};
use std::alloc::Global;
use std::marker::Model;

/// Where a switch starts in which no token stands and no packet is under way: what is set, and where
/// each of its links stands.
#[derive(Drop)]
pub struct SwitchStart {
    registers: Box<Registers>,
    links: Vec<LinkStart>,
}

impl Model for SwitchStart {
    ghost use Rattle.std.specs.{Prelude.◌≤◌, Vec.vec_capacity};
    ghost use Rattle.{c104_regs.specs.declared.registers.TheConstants.LINKS, c104_switch.specs.Starts.{IsSwitchStart, SwitchStart}};

    ghost Value = { SwitchStart };

    ghost view = { λ s. record {
      started = s.registers.value.started;
      settings = s.registers.value.settings;
      links = s.links.items;
    } };

    // There is room for the links, so that another start can be written here.
    ghost invariant = { λ s. IsSwitchStart (record {
      started = s.registers.value.started;
      settings = s.registers.value.settings;
      links = s.links.items;
    }) × (LINKS ≤ vec_capacity s.links) };
}

impl SwitchStart {
    /// The start of a new switch: reset and not started, with nothing granted and no credit. The only
    /// error is out of memory.
    pub fn new(alloc: Global, cap: usize) -> Result<Self, NoMemory>
        requires { IsValidCap cap }
        ensures { IfOk result (λ s. s ≡ new_start cap (replicate LINKS reset_settings) false) }
    {
        let registers = Box::new(alloc, Registers::new())?;
        let links = new_links(alloc, cap)?;
        Ok(SwitchStart { registers, links })
    }

    /// The start of a switch that is started with the settings of these registers, with nothing granted
    /// and no credit. The only error is out of memory.
    pub fn placed(alloc: Global, cap: usize, registers: &Registers) -> Result<Self, NoMemory>
        requires { IsValidCap cap }
        ensures { IfOk result (λ s. s ≡ new_start cap registers.now.settings true) }
    {
        let registers = Box::new(alloc, registers.placed_again())?;
        let links = new_links(alloc, cap)?;
        Ok(SwitchStart { registers, links })
    }

    /// Writes another start here: these settings, and where each link of a switch stands.
    pub(crate) fn write<T: TokenKind>(
        &mut self,
        registers: &Registers,
        inputs: &InputsOf<T>,
        outputs: &OutputsOf<T>,
    )
        requires { IsSound (record {
          started = registers.now.started;
          settings = registers.now.settings;
          inputs = inputs.now;
          outputs = outputs.now;
        }) }
        ensures { self.new ≡ record {
          started = registers.now.started;
          settings = registers.now.settings;
          links = link_starts inputs.now outputs.now;
        } }
    {
        *self.registers = *registers;
        write_links(&mut self.links, inputs, outputs);
    }

    /// Where each link stands.
    pub fn links(&self) -> &[LinkStart]
        ensures links { result.now ≡ self.now.links }
        ensures kept { IsSwitchStart self.now }
    {
        let _registers = &self.registers;
        self.links.as_slice()
    }

    /// What is set, and whether the switch is started.
    pub fn registers(&self) -> &Registers
        ensures started { result.now.started ≡ self.now.started }
        ensures settings { result.now.settings ≡ self.now.settings }
    {
        &self.registers
    }
}

/// The links of a switch at first. The only error is out of memory.
fn new_links(alloc: Global, cap: usize) -> Result<Vec<LinkStart>, NoMemory>
    ensures links { IfOk result (λ links. links.items ≡ replicate LINKS (new_link cap)) }
    ensures room { IfOk result (λ links. LINKS ≤ vec_capacity links) }
{
    let mut list = Vec::with_capacity(alloc, LINKS)?;
    for _ in 0..LINKS {
        list.push_reserved(LinkStart {
            cap,
            granted: 0,
            credit: 0,
            sunk: 0,
            short: 0,
        });
    }
    Ok(list)
}

/// Writes where each link of a switch stands in place of others.
fn write_links<T: TokenKind>(
    links: &mut Vec<LinkStart>,
    inputs: &InputsOf<T>,
    outputs: &OutputsOf<T>,
)
    requires room { LINKS ≤ vec_capacity links.old }
    requires inputs { length inputs.now ≡ LINKS }
    requires outputs { length outputs.now ≡ LINKS }
    ensures links { links.new.items ≡ link_starts inputs.now outputs.now }
    ensures room { LINKS ≤ vec_capacity links.new }
{
    links.clear();
    for link in 0..LINKS {
        let Some(input) = inputs.get(link) else {
            unreachable!();
        };
        let Some(output) = outputs.get(link) else {
            unreachable!();
        };
        links.push_reserved(LinkStart {
            cap: input.cap(),
            granted: input.granted(),
            credit: output.credit(),
            sunk: input.sunk(),
            short: input.short(),
        });
    }
}
