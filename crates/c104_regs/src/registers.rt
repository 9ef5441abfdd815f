//! The registers of a switch, by address.
ghost use Rattle.std.specs.{Int.bit_at, Prelude.{All, Err, IfOk, IsTrue, Ok, OnErr, OnOk, length, ℕ, ◌-◌, ◌/◌, ◌<◌, ◌≡◌, ◌≢◌}};
ghost use Rattle.c104_regs.specs.{Addresses.{IsRegister, Register, register_properties, register_takes}, Groups.continue_bits};
ghost use Rattle.c104_regs.specs.{Groups.continues_at, Ranges.{IsInRange, IsTableInRange}, Registers.{IsRegisterBank, IsTarget}};
ghost use Rattle.c104_regs.specs.Registers.{RegisterBank as Bank, bank_peek, bank_poke, free_target, placed_bank, reset_bank, settable};
ghost use Rattle.c104_regs.specs.{Registers.{settings_at, settings_with, status_at, target, with_status}, Values.{bit_value, mode_of}};
ghost use Rattle.c104_regs.specs.{Values.register_read, declared.faults.RegFault.TheVariants.OutOfRange};

use crate::addresses::{Address, Register};
use crate::faults::RegFault;
use crate::groups::continues_of;
use crate::packed::PackedSettings;
use crate::settings::Settings;
use crate::status::Status;
use crate::values::number;
use c104_interval::Table;
use std::marker::Model;

/// How many links a switch has.
pub const LINKS: usize = 32;

/// The number by which the device says what it is.
pub const DEVICE_ID: u32 = 0x0000_c104;

/// The registers of a switch.
///
/// What is set by a poke stays here, and what is set otherwise is such as a poke may set. What the
/// switch tells of itself is told by `set_started` and `set_status`, and is shown as it was told
/// last; `peek_told` and `poke_told` take a link's status from the caller in place of that.
#[derive(Clone, Copy)]
pub struct Registers {
    started: bool,
    // The links that continue a group: link l at bit l.
    continues: u32,
    settings: [PackedSettings; LINKS],
    statuses: [Status; LINKS],
}

impl Model for Registers {
    ghost use Rattle.std.{proofs.Common.{ap, sym}, specs.Prelude.◌≡◌};
    ghost use Rattle.c104_regs.specs.{Groups.continue_bits, Registers.{IsRegisterBank, RegisterBank}};

    ghost Value = { RegisterBank };

    ghost view = { λ r. record { started = r.started; settings = r.settings; statuses = r.statuses } };

    ghost invariant = { λ r.
        IsRegisterBank
        (record { started = r.started; settings = r.settings; statuses = r.statuses })
        × (r.continues ≡ continue_bits r.settings) };

    ghost inverse = { λ b. record {
      started = b.started;
      continues = continue_bits b.settings;
      settings = b.settings;
      statuses = b.statuses;
    } };

    ghost inverse_ok = { λ r holds. ap
        (λ n. record { started = r.started; continues = n; settings = r.settings; statuses = r.statuses })
        (sym holds.1) };
}

impl Registers {
    /// The registers after a reset, of a switch that isn't started and has told nothing.
    pub fn new() -> Self
        ensures registers { result ≡ reset_bank }

        // Each register of a link has the value that the table says.
        ensures values { (l : ℕ) (r : Register) →
            register_read (settings_at result l) (status_at result l) r ≡
            (register_properties r).reset }
    {
        Registers {
            started: false,
            continues: 0,
            settings: [PackedSettings::reset(); LINKS],
            statuses: [Status::reset(); LINKS],
        }
    }

    /// The registers of a switch that is started, with these settings at its links. The switch has
    /// told nothing yet.
    pub fn placed(settings: &[Settings]) -> Self
        requires links { length settings.now ≡ LINKS }
        requires ranges { All IsInRange settings.now }
        ensures { result ≡ placed_bank settings.now }
    {
        let mut own = [PackedSettings::reset(); LINKS];
        for link in 0..LINKS {
            own[link] = PackedSettings::pack(&settings[link]);
        }
        Registers {
            started: true,
            continues: continues_of(&own),
            settings: own,
            statuses: [Status::reset(); LINKS],
        }
    }

    /// The registers of another switch that is started, with the settings of this one. That switch
    /// has told nothing yet.
    pub fn placed_again(&self) -> Self
        ensures placed { result ≡ placed_bank self.now.settings }
        ensures kept { IsRegisterBank self.now }
    {
        Registers {
            started: true,
            continues: self.continues,
            settings: self.settings,
            statuses: [Status::reset(); LINKS],
        }
    }

    /// The value of the register at this address. NoRegister where there is none; no other fault
    /// comes.
    pub fn peek(&self, addr: u16) -> Result<u32, RegFault>
        ensures read { result ≡ bank_peek self.now addr }

        // What is read is in the range of its register: a poke of it is never refused for its value.
        ensures in_range { IfOk result (λ value. settable addr value ≢ Err OutOfRange) }
    {
        match Address::at(addr) {
            None => Err(RegFault::NoRegister),
            Some(Address::DeviceId) => Ok(DEVICE_ID),
            Some(Address::Started) => Ok(number(self.started, 1)),
            Some(Address::AtLink(link, register)) => {
                Ok(register.read(&self.settings[link], &self.statuses[link]))
            }
        }
    }

    /// The same of a switch that tells this status of the link of the address, `link_of`, whatever
    /// it told last.
    pub fn peek_told(&self, addr: u16, status: &Status) -> Result<u32, RegFault>
        ensures { (b : Bank) →
            b.started ≡ self.now.started → b.settings ≡ self.now.settings →
            status_at b (addr / 0x100 - 1) ≡ status.now → result ≡ bank_peek b addr }
    {
        match Address::at(addr) {
            None => Err(RegFault::NoRegister),
            Some(Address::DeviceId) => Ok(DEVICE_ID),
            Some(Address::Started) => Ok(number(self.started, 1)),
            Some(Address::AtLink(link, register)) => {
                Ok(register.read(&self.settings[link], status))
            }
        }
    }

    /// The link whose status alone decides what this address reads, and whether it may be set: 32
    /// or more past the last link's addresses.
    pub fn link_of(addr: u16) -> usize
        ensures { result ≡ addr / 0x100 - 1 }
    {
        (addr / 0x100).saturating_sub(1) as usize
    }

    /// Sets the register at this address. NoRegister where there is none, ReadOnly where it can't be
    /// written, OutOfRange where it doesn't take the value, and Busy for the mode of a link through
    /// which a packet is on its way. What is refused changes nothing.
    pub fn poke(&mut self, addr: u16, value: u32) -> Result<(), RegFault>
        ensures poked { (result, self.new) ≡ bank_poke self.old addr value }

        // The registers are a map, which an accepted poke changes at one address.
        ensures written { OnOk result (bank_peek self.new addr ≡ Ok value) }
        ensures others { OnOk result
            ((a : ℕ) → a ≢ addr → bank_peek self.new a ≡ bank_peek self.old a) }
        ensures refused { OnErr result (self.new ≡ self.old) }
    {
        let busy = self.is_busy(Registers::link_of(addr));
        let (link, register) = free_target(addr, value, busy)?;
        set(
            &mut self.settings,
            &mut self.continues,
            link,
            register,
            value,
        );
        Ok(())
    }

    /// The same of a switch that tells this status of the link of the address, `link_of`, whatever
    /// it told last.
    pub fn poke_told(&mut self, addr: u16, value: u32, status: &Status) -> Result<(), RegFault>
        ensures poked { (b : Bank) →
            b.settings ≡ self.old.settings → status_at b (addr / 0x100 - 1) ≡ status.now →
            (result ≡ (bank_poke b addr value).0) × (self.new.settings ≡ (bank_poke b addr value).1.settings) }
        ensures told { self.new ≡ record self.old { settings = self.new.settings } }
    {
        let (link, register) = free_target(addr, value, status.busy)?;
        set(
            &mut self.settings,
            &mut self.continues,
            link,
            register,
            value,
        );
        Ok(())
    }

    /// Whether a poke may set the register at this address to this value, as far as that doesn't
    /// depend on what the switch is doing: each fault of `poke` but Busy.
    pub fn settable(addr: u16, value: u32) -> Result<(), RegFault>
        ensures { result ≡ settable addr value }
    {
        target(addr, value)?;
        Ok(())
    }

    /// Whether the switch is started, as it was told last.
    pub fn started(&self) -> bool
        ensures { result ≡ self.now.started }
    {
        self.started
    }

    /// What is set at each link, in order.
    pub fn all_settings(&self) -> &[PackedSettings]
        ensures settings { result.now ≡ self.now.settings }
        ensures kept { IsRegisterBank self.now }
    {
        self.settings.as_slice()
    }

    /// The four bits of a link's mode, the link being 0 to 31.
    pub fn mode(&self, link: usize) -> u32
        requires { link < LINKS }
        ensures { result ≡ mode_of (settings_at self.now link) }
    {
        self.settings(link).mode()
    }

    /// The interval table of a link's input, the link being 0 to 31.
    pub fn table(&self, link: usize) -> Table
        requires { link < LINKS }
        ensures table { result ≡ (settings_at self.now link).table }
        ensures kept { IsTableInRange result }
    {
        self.settings(link).table()
    }

    /// Whether a packet was on its way through a link when the switch told of it last. Past the last link
    /// there is none.
    fn is_busy(&self, link: usize) -> bool
        ensures { result ≡ (status_at self.now link).busy }
    {
        match self.statuses.get(link) {
            Some(status) => status.busy,
            None => false,
        }
    }

    /// What is set at a link, 0 to 31.
    fn settings(&self, link: usize) -> &PackedSettings
        requires { link < LINKS }
        ensures settings { result.now ≡ settings_at self.now link }
        ensures kept { IsInRange result.now }
    {
        &self.settings[link]
    }

    /// The links that continue the group of the link before them: link l at bit l.
    pub fn continues(&self) -> u32
        ensures number { result ≡ continue_bits self.now.settings }
        ensures bits { (l : ℕ) → bit_at result l ≡ bit_value (continues_at self.now.settings l) 1 }
    {
        self.continues
    }

    /// Tells whether the switch is started.
    pub fn set_started(&mut self, started: bool)
        ensures { self.new ≡ record self.old { started = started } }
    {
        self.started = started;
    }

    /// Tells the status of a link, 0 to 31.
    pub fn set_status(&mut self, link: usize, status: Status)
        requires { link < LINKS }
        ensures { self.new ≡ with_status self.old link status }
    {
        self.statuses[link] = status;
    }
}

/// The link and the register that a poke would set, or the first fault of the address and the
/// value.
fn target(addr: u16, value: u32) -> Result<(usize, Register), RegFault>
    ensures target { result ≡ target addr value }
    ensures found { IfOk result (λ x. IsTarget addr value x.0 x.1) }
{
    let Some(address) = Address::at(addr) else {
        return Err(RegFault::NoRegister);
    };
    let Address::AtLink(link, register) = address else {
        return Err(RegFault::ReadOnly);
    };
    if !register.is_writable() {
        return Err(RegFault::ReadOnly);
    }
    if !register.takes(value) {
        return Err(RegFault::OutOfRange);
    }
    Ok((link, register))
}

/// The link and the register that a poke sets, where that link is busy or not, or the first fault.
/// Busy comes after those of the address and the value.
fn free_target(addr: u16, value: u32, busy: bool) -> Result<(usize, Register), RegFault>
    ensures free { result ≡ free_target busy addr value }
    ensures found { IfOk result (λ x. IsTarget addr value x.0 x.1) }
{
    let (link, register) = target(addr, value)?;
    if register.waits() && busy {
        return Err(RegFault::Busy);
    }
    Ok((link, register))
}

/// Sets a register of a link, and keeps the word of the links that continue a group.
fn set(
    settings: &mut [PackedSettings],
    continues: &mut u32,
    link: usize,
    register: Register,
    value: u32,
)
    requires links { length settings.old ≡ LINKS }
    requires target { (link < LINKS) × IsRegister register × IsTrue (register_takes register value) }
    requires continues { continues.old ≡ continue_bits settings.old }
    ensures settings { settings.new ≡ settings_with settings.old link register value }
    ensures continues { continues.new ≡ continue_bits settings.new }
{
    let own = &mut settings[link];
    let before = own.continue_group();
    own.set(register, value);

    // Of the registers the mode alone, which is the one that waits, says whether a link continues.
    if register.waits() {
        let bit = 1u32 << link;
        *continues = *continues - number(before, bit) + number(own.continue_group(), bit);
    }
}
