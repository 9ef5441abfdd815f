//! What one switch of an image is to hold.
ghost use Rattle.std.specs.Prelude.{All, IfOk, List, Ok, OnErr, OnOk, Option, length, nat_lt, slice_index_or, vec_capacity, vec_len, ℕ};
ghost use Rattle.std.specs.Prelude.{◌&&◌, ◌++◌, ◌<◌, ◌==◌, ◌≡◌, ◌≢◌, ◌≤◌};
ghost use Rattle.c104_plan.specs.{ImageEdits.{AnswersDue, settings_set}, PlanImage.AreSettings, SwitchImages.led_by};
ghost use Rattle.c104_regs.specs.{KeptValues.{IsMapOf, kept_value, kept_values}, Registers.{IsRegisterBank, bank_peek, placed_bank}};
ghost use Rattle.c104_regs.specs.Registers.{reset_bank};

use crate::image_faults::ImageFault;
use c104_regs::{PackedSettings, Registers, Settings};
use std::alloc::{AllocError, Global};
use std::fmt::{self, Debug, Formatter, Write};
use std::marker::Model;

/// What one switch of an image is to hold: settings for each of its 32 links, within the ranges of
/// the registers. It keeps beside them what differs from a reset.
#[derive(Drop)]
pub struct SwitchImage {
    registers: Registers,
    values: Vec<(u16, u32)>,
}

impl Model for SwitchImage {
    ghost use Rattle.std.specs.Prelude.{List};
    ghost use Rattle.{c104_plan.specs.SwitchImages.AreKept, c104_regs.specs.declared.settings.Settings.Settings as TheSettings};

    ghost Value = { List TheSettings };

    ghost view = { λ switch. switch.registers.settings };

    ghost invariant = { λ switch. AreKept switch.registers switch.values.items };
}

impl Debug for SwitchImage {
    fn fmt<W: Write>(&self, f: &mut Formatter<W>) -> Result<(), fmt::Error> {
        self.values.fmt(f)
    }
}

impl SwitchImage {
    /// A switch as after a reset.
    pub(crate) fn new(alloc: Global) -> Self
        ensures { result ≡ reset_bank.settings }
    {
        let mut registers = Registers::new();
        registers.set_started(true);
        SwitchImage {
            registers,
            values: Vec::new(alloc),
        }
    }

    /// A switch with these settings at its links.
    pub(crate) fn with_settings(alloc: Global, settings: &[Settings]) -> Result<Self, AllocError>
        requires { AreSettings settings.now }
        ensures { IfOk result (λ switch. switch ≡ settings.now) }
    {
        let registers = Registers::placed(settings);
        let values = registers.kept_values(alloc)?;
        Ok(SwitchImage { registers, values })
    }

    /// The registers of the switch where it is started with its settings and has told nothing yet.
    pub fn registers(&self) -> &Registers
        ensures { result.now ≡ placed_bank self.now }
    {
        &self.registers
    }

    /// What is set at each of the switch's 32 links.
    pub fn settings(&self) -> &[PackedSettings]
        ensures settings { result.now ≡ self.now }
        ensures all { AreSettings self.now }
    {
        self.registers.all_settings()
    }

    /// What the switch's registers read that isn't what they read after a reset, each with its
    /// address, in ascending order of addresses.
    pub fn values(&self) -> &[(u16, u32)]
        ensures values { result.now ≡ kept_values self.now }
        ensures map { IsMapOf self.now result.now }
    {
        self.values.as_slice()
    }

    /// Sets the register at this address. The registers' faults are `Register`, and out of memory
    /// comes after them; each changes nothing.
    pub(crate) fn set(&mut self, addr: u16, value: u32) -> Result<(), ImageFault>
        ensures answer { AnswersDue self.old (settings_set self.old addr value) result self.new }
        ensures all { OnOk result (AreSettings self.new) }
        ensures written { OnOk result (bank_peek (placed_bank self.new) addr ≡ Ok value) }
        ensures others { OnOk result
            ((a : ℕ) → a ≢ addr →
            bank_peek (placed_bank self.new) a ≡ bank_peek (placed_bank self.old) a) }
        ensures refused { OnErr result (self.new ≡ self.old) }
    {
        Registers::settable(addr, value)?;
        self.values.reserve(1)?;
        self.registers.poke(addr, value)?;
        keep(&mut self.values, addr, kept_value(&self.registers, addr));
        Ok(())
    }
}

/// The value that is kept of an address: what it reads, unless it reads the same after a reset.
fn kept_value(registers: &Registers, addr: u16) -> Option<u32>
    ensures value { result ≡ kept_value registers.now.settings addr }
    ensures in_range { IsRegisterBank registers.now }
{
    registers.kept_value(addr)
}

/// Brings values in ascending order of addresses up to date at an address, where there is room for
/// one more.
fn keep(values: &mut Vec<(u16, u32)>, addr: u16, value: Option<u32>)
    requires { vec_len values.old < vec_capacity values.old }
    ensures { (front back : List (ℕ × ℕ)) (present : Option ℕ) →
        All (λ x. x.0 < addr) front → All (λ x. addr < x.0) back →
        values.old.items ≡ front ++ led_by addr present back →
        values.new.items ≡ front ++ led_by addr value back }
{
    let place = place_of(values.as_slice(), addr);
    clear(values, place, addr);
    if let Some(value) = value {
        let Ok(()) = values.insert(place, (addr, value)) else {
            unreachable!()
        };
    }
}

/// How many of these values, in ascending order of addresses, are of addresses below one.
fn place_of(values: &[(u16, u32)], addr: u16) -> usize
    ensures within { result ≤ length values.now }
    ensures place { (front rest : List (ℕ × ℕ)) →
        All (λ x. x.0 < addr) front → All (λ x. addr ≤ x.0) rest →
        values.now ≡ front ++ rest → result ≡ length front }
{
    values.partition_point(|entry| entry.0 < addr)
}

/// Takes the value of an address out, if it is at this place.
fn clear(values: &mut Vec<(u16, u32)>, place: usize, addr: u16)
    ensures rest { (front back : List (ℕ × ℕ)) (present : Option ℕ) →
        All (λ x. addr < x.0) back → place ≡ length front →
        values.old.items ≡ front ++ led_by addr present back → values.new.items ≡ front ++ back }
    ensures within { place ≤ vec_len values.old → place ≤ vec_len values.new }
    ensures room { vec_len values.old < vec_capacity values.old → vec_len values.new < vec_capacity values.new }
{
    if is_at(values.as_slice(), place, addr) {
        values.remove(place);
    }
}

/// Whether the value at a place is that of an address.
fn is_at(values: &[(u16, u32)], place: usize, addr: u16) -> bool
    ensures { (d : ℕ × ℕ) →
        result ≡ (nat_lt place (length values.now) && (slice_index_or values.now place d).0 == addr) }
{
    place < values.len() && values[place].0 == addr
}
