//! What of a switch's settings differs from a reset, by address.
ghost use Rattle.std.specs.Prelude.{IfOk, None, Some, length, slice_index_or, true, ℕ, ◌%◌, ◌-◌, ◌/◌, ◌<◌, ◌↔◌, ◌≡◌, ◌≤◌};
ghost use Rattle.c104_regs.specs.{Addresses.register_properties, Gaps.is_gap, KeptValues.{IsKept, IsMapOf, kept_value, kept_values}};
ghost use Rattle.c104_regs.specs.{KeptValues.unless_reset, Registers.IsRegisterBank, Settings.reset_settings};

use crate::addresses::{ADDRESS_END, Address, Register};
use crate::packed::PackedSettings;
use crate::registers::{LINKS, Registers};
use crate::status::Status;
use crate::values::SINK_CODE;
use std::alloc::{AllocError, Global};

/// How many addresses a link has.
const LINK_ADDRESSES: u16 = 0x100;

impl Register {
    /// The register's value after a reset.
    fn reset_value(self) -> u32
        ensures { result ≡ (register_properties self).reset }
    {
        match self {
            Register::Select(_) => SINK_CODE,
            _ => 0,
        }
    }

    /// A value of the register where it is kept.
    fn unless_reset(self, value: u32) -> Option<u32>
        ensures { result ≡ unless_reset self value }
    {
        if self.is_writable() && value != self.reset_value() {
            Some(value)
        } else {
            None
        }
    }
}

impl Registers {
    /// What the address reads, where a poke may change it and it isn't what it reads after a reset.
    /// None where it is, where no register has the address, and where the register can't be
    /// written.
    pub fn kept_value(&self, addr: u16) -> Option<u32>
        ensures value { result ≡ kept_value self.now.settings addr }
        ensures kept { (v : ℕ) → (result ≡ Some v) ↔ IsKept self.now.settings addr v }
        ensures in_range { IsRegisterBank self.now }
    {
        let settings = self.all_settings();
        kept_value(settings, addr)
    }

    /// The values that are kept, each with its address, in ascending order of addresses: what is to
    /// be poked into a switch that was reset, to give it these settings. It fails only when out of
    /// memory.
    pub fn kept_values(&self, alloc: Global) -> Result<Vec<(u16, u32)>, AllocError>
        ensures values { IfOk result (λ values. values.items ≡ kept_values self.now.settings) }
        ensures map { IfOk result (λ values. IsMapOf self.now.settings values.items) }
        ensures in_range { IsRegisterBank self.now }
    {
        let settings = self.all_settings();
        let mut values = Vec::new(alloc);
        let mut addr = 0;
        while addr < ADDRESS_END {
            if let Some(value) = kept_value(settings, addr) {
                values.push((addr, value))?;
            }
            addr = next_kept(settings, addr + 1);
        }
        Ok(values)
    }
}

/// The first address from this one on of which a value may be kept, or the end: those of links that are as after a reset
/// are passed over, and those at which there is no register.
fn next_kept(settings: &[PackedSettings], addr: u16) -> u16
    requires { addr ≤ ADDRESS_END }
    ensures passed { (a : ℕ) → addr ≤ a → a < result → kept_value settings.now a ≡ None }
    ensures after { addr ≤ result }
    ensures within { result ≤ ADDRESS_END }
{
    let mut next = past_gap(addr);
    while begins_reset_link(settings, next) {
        next += LINK_ADDRESSES;
    }
    next
}

/// The first address from this one on that isn't in a part of a link's addresses where there is no register.
fn past_gap(addr: u16) -> u16
    requires { addr ≤ ADDRESS_END }
    ensures passed { (a : ℕ) → addr ≤ a → a < result → is_gap (a % 0x100) ≡ true }
    ensures after { addr ≤ result }
    ensures within { result ≤ ADDRESS_END }
{
    let offset = addr % LINK_ADDRESSES;
    match offset {
        0x0a..=0x3e => addr - offset + 0x3f,
        0x64..=0x7f => addr - offset + 0x80,
        0xa4..=0xff => addr - offset + LINK_ADDRESSES,
        _ => addr,
    }
}

/// Whether a link that is as after a reset has its first address here.
fn begins_reset_link(settings: &[PackedSettings], addr: u16) -> bool
    requires { addr ≤ ADDRESS_END }
    ensures begins { result ≡ true → addr % 0x100 ≡ 0 }
    ensures before { result ≡ true → addr < ADDRESS_END }
    ensures reset { result ≡ true → slice_index_or settings.now (addr / 0x100 - 1) reset_settings ≡ reset_settings }
{
    if addr % LINK_ADDRESSES != 0 || addr >= ADDRESS_END {
        return false;
    }
    match settings.get(Registers::link_of(addr)) {
        Some(link) => link.is_reset(),
        None => false,
    }
}

/// The value that is kept of an address, by the settings of all links.
fn kept_value(settings: &[PackedSettings], addr: u16) -> Option<u32>
    requires { length settings.now ≡ LINKS }
    ensures { result ≡ kept_value settings.now addr }
{
    match Address::at(addr) {
        Some(Address::AtLink(link, register)) => {
            let value = register.read(&settings[link], &Status::reset());
            register.unless_reset(value)
        }
        _ => None,
    }
}
