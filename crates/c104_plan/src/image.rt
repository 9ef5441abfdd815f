//! Images: what is to be loaded into a network's switches.
ghost use Rattle.std.specs.{Option.option_copied, Prelude.{All, Err, IfOk, IfSome, IsTrue, List, Ok, OnErr, OnOk, Some, map, option_map}};
ghost use Rattle.std.specs.Prelude.{slice_get, ℕ, ◌↔◌, ◌≡◌, ◌≢◌, ◌⊎◌};
ghost use Rattle.c104_plan.specs.ImageEdits.{AnswersDue, image_peek, image_set, image_set_range, is_range, new_image};
ghost use Rattle.{c104_plan.specs.{PlanImage.{AreSettings, Fits, range_of}, Plans.{IsPlan, IsRange}}, c104_regs.specs.KeptValues.IsMapOf};
ghost use Rattle.c104_regs.specs.{KeptValues.kept_values, Registers.{reset_bank, settable}};
ghost use Rattle.c104_regs.specs.declared.{faults.RegFault.RegFault as TheRegFault, settings.Settings.Settings as TheSettings};
ghost use Rattle.c104_plan.specs.declared.image_faults.ImageFault.TheVariants as fault;

use crate::image_faults::ImageFault;
use crate::plans::Plan;
use crate::switch_image::SwitchImage;
use c104_regs::PackedSettings;
use c104_token::NoMemory;
use std::alloc::{AllocError, Global};
use std::marker::Model;

/// What a network's switches are to hold, and which labels each terminal has.
#[derive(Debug, Drop)]
pub struct Image {
    pub(crate) ranges: Vec<(u32, u32)>,
    pub(crate) switches: Vec<SwitchImage>,
}

impl Model for Image {
    ghost use Rattle.c104_plan.specs.PlanImage.{Image as TheImage, IsImage};

    ghost Value = { TheImage };

    ghost view = { λ image.
        record { ranges = image.ranges.items; settings = image.switches.items } };

    ghost invariant = { λ image.
        IsImage (record { ranges = image.ranges.items; settings = image.switches.items }) };
}

impl Image {
    /// The image of a plan's ranges, in which all switches are as after a reset. The only error is
    /// out of memory.
    pub fn new(alloc: Global, plan: &Plan) -> Result<Self, NoMemory>
        ensures image { IfOk result (λ image. image ≡ new_image plan.now) }
        ensures fits { IfOk result (λ image. Fits image plan.now) }
    {
        let ranges = ranges(alloc, plan)?;
        let switches = new_switches(alloc, plan)?;
        Ok(Image { ranges, switches })
    }

    /// Sets the register at this address of a switch, 0x0000 to 0xffff, for when the switch is
    /// placed or loaded with the image. A value that the register has after a reset isn't kept.
    ///
    /// NoNode where the image has no such switch; then Register with NoRegister where no register
    /// has the address, ReadOnly where it can't be written, and OutOfRange where it doesn't take
    /// the value; then NoMemory. What is refused changes nothing.
    pub fn set(&mut self, switch: usize, addr: u16, value: u32) -> Result<(), ImageFault>
        ensures answer { AnswersDue self.old (image_set self.old switch addr value) result self.new }

        // The registers' faults are those of the address and the value: no switch is busy.
        ensures faults { (e : TheRegFault) →
            result ≡ Err (fault.Register e) → settable addr value ≡ Err e }

        // The image is a map by switch and address, which changes at one place.
        ensures written { OnOk result (image_peek self.new switch addr ≡ Some (Ok value)) }
        ensures others { OnOk result
            ((s a : ℕ) → (s ≢ switch) ⊎ (a ≢ addr) →
            image_peek self.new s a ≡ image_peek self.old s a) }
        ensures ranges { self.new.ranges ≡ self.old.ranges }
        ensures refused { OnErr result (self.new ≡ self.old) }
    {
        let Some(switch) = self.switches.get_mut(switch) else {
            return Err(ImageFault::NoNode);
        };
        switch.set(addr, value)
    }

    /// Sets the labels of a terminal: the first, and how many.
    ///
    /// NoNode where the image has no such terminal, and BadRange where there is no label, or they
    /// end past 65535. What is refused changes nothing, and no other error comes.
    pub fn set_range(&mut self, terminal: usize, first: u32, count: u32) -> Result<(), ImageFault>
        ensures { (result, self.new) ≡ image_set_range self.old terminal first count }
    {
        let Some(range) = self.ranges.get_mut(terminal) else {
            return Err(ImageFault::NoNode);
        };
        if !is_range(first, count) {
            return Err(ImageFault::BadRange);
        }
        *range = (first, count);
        Ok(())
    }

    /// Whether the image has as many terminals and as many switches as the plan.
    pub fn fits(&self, plan: &Plan) -> bool
        ensures { IsTrue result ↔ Fits self.now plan.now }
    {
        self.ranges.len() == plan.terminals().len() && self.switches.len() == plan.switches().len()
    }

    /// The labels of a terminal: the first, and how many. None where the image has no such terminal.
    pub fn range(&self, terminal: usize) -> Option<(u32, u32)>
        ensures range { result ≡ slice_get self.now.ranges terminal }
        ensures within { IfSome result (λ range. IsRange range.0 range.1) }
    {
        self.ranges.get(terminal).copied()
    }

    /// What a switch's registers read that isn't what they read after a reset, each with its
    /// address, in ascending order of addresses. None where the image has no such switch.
    pub fn values(&self, switch: usize) -> Option<&[(u16, u32)]>
        ensures values { option_copied result ≡ option_map kept_values (slice_get self.now.settings switch) }

        // They are a map: no address comes twice, and of each that may be set there is the value
        // that it reads, unless it reads the same after a reset.
        ensures map { (settings : List TheSettings) →
            slice_get self.now.settings switch ≡ Some settings →
            IsMapOf settings (kept_values settings) }
    {
        let switch = self.switches.get(switch)?;
        Some(switch.values())
    }

    /// What is set at each of a switch's 32 links. None where the image has no such switch.
    pub fn settings(&self, switch: usize) -> Option<&[PackedSettings]>
        ensures settings { option_copied result ≡ slice_get self.now.settings switch }
        ensures all { IfSome result (λ settings. AreSettings settings.now) }
    {
        let switch = self.switches.get(switch)?;
        Some(switch.settings())
    }

    /// The switches, by number. Each has the registers that a switch is placed with.
    pub fn switches(&self) -> &[SwitchImage]
        ensures settings { result.now ≡ self.now.settings }
        ensures all { All AreSettings self.now.settings }
    {
        self.switches.as_slice()
    }
}

/// The range of each terminal.
pub(crate) fn ranges(alloc: Global, plan: &Plan) -> Result<Vec<(u32, u32)>, AllocError>
    ensures ranges { IfOk result (λ ranges. ranges.items ≡ map range_of plan.now.terminals) }
    ensures kept { IsPlan plan.now }
{
    plan.terminals()
        .iter()
        .map(|terminal| (terminal.first, terminal.count))
        .collect(alloc)
}

/// A switch as after a reset for each of the plan.
fn new_switches(alloc: Global, plan: &Plan) -> Result<Vec<SwitchImage>, AllocError>
    ensures { IfOk result (λ switches.
        switches.items ≡ map (λ _. reset_bank.settings) plan.now.switches) }
{
    let mut switches = Vec::new(alloc);
    for _name in plan.switches() {
        switches.push(SwitchImage::new(alloc))?;
    }
    Ok(switches)
}

/// Whether these are a range of labels, by its first and how many they are.
fn is_range(first: u32, count: u32) -> bool
    ensures { result ≡ is_range first count }
{
    0 < count && u64::from(first) + u64::from(count) <= 65536
}
