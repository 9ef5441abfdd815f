//! The registers of a network's switches, as an image.
ghost use Rattle.std.specs.Prelude.{IfErr, IfOk, List, OnOk, Some, length, slice_get, ℕ, ◌<◌, ◌≡◌, ◌≢◌};
ghost use Rattle.{c104_plan.specs.{ImageEdits.image_set, PlanImage.Fits}, c104_readback.specs.ReadBacks.{AreReset, HasRanges, HasRegisters}};
ghost use Rattle.c104_regs.specs.KeptValues.{kept_values};
ghost use Rattle.c104_regs.specs.{Registers.{IsRegisterBank, placed_bank, reset_bank}, declared.settings.Settings.Settings as TheSettings};
ghost use Rattle.{c104_switch.specs.Switch.Switch as TheSwitch, c104_token.specs.declared.tokens.Token.Token};
ghost use Rattle.c104_node.specs.declared.node.NodeOf.TheVariants as node;

use c104_net::TracedNet;
use c104_node::{NodeOf, node_at};
use c104_plan::{Image, ImageFault, Plan};
use c104_switch::SwitchStart;
use c104_token::NoMemory;
use std::alloc::Global;

/// The buffers of a start that another one is written over.
const ANY_BUFFER: usize = 8;

/// An image of a plan with the labels of another image, in which all switches are as after a reset. The only error is out
/// of memory.
pub(crate) fn blank_image(alloc: Global, plan: &Plan, image: &Image) -> Result<Image, NoMemory>
    requires { Fits image.now plan.now }
    ensures fits { IfOk result (λ blank. Fits blank plan.now) }
    ensures ranges { IfOk result (λ blank. HasRanges image.now blank) }
    ensures reset { IfOk result AreReset }
{
    let mut blank = Image::new(alloc, plan)?;
    for terminal in 0..plan.terminals().len() {
        if let Some((first, count)) = image.range(terminal) {
            let _ = blank.set_range(terminal, first, count);
        }
    }
    Ok(blank)
}

/// Copies the registers of a network's switches that can be written into an image, in which they are as after a reset.
/// The only error is out of memory.
#[tactic(auto, using(crate::proofs::CopiedSettings::copied_next, crate::proofs::CopiedSettings::reset_next))]
pub(crate) fn copy_registers(
    alloc: Global,
    net: &TracedNet,
    left: &mut Image,
) -> Result<(), NoMemory>
    requires { AreReset left.old }
    ensures ranges { left.new.ranges ≡ left.old.ranges }
    ensures count { length left.new.settings ≡ length left.old.settings }
    ensures registers { OnOk result (HasRegisters net.now.network left.new) }
{
    let mut start = SwitchStart::new(alloc, ANY_BUFFER)?;
    for switch in 0..left.switches().len() {
        write_start(net, switch, &mut start);
        let values = start.registers().kept_values(alloc)?;
        set_values(left, switch, values.as_slice())?;
    }
    Ok(())
}

/// Writes the start of a switch over another one, where there is such a switch.
fn write_start(net: &TracedNet, switch: usize, start: &mut SwitchStart)
    ensures { (s : TheSwitch Token) → slice_get net.now.network.nodes switch ≡ Some (node.Switch s)
        → start.new.settings ≡ s.settings }
{
    let Some(found) = node_at(net.places(), switch) else {
        return;
    };
    match found {
        NodeOf::Switch(found) => found.write_start(start),
        NodeOf::Terminal(_) => {}
    }
}

/// Sets these values at a switch of an image, each at its address: those that are kept of settings, in a switch that is as
/// after a reset. The only error is out of memory.
fn set_values(left: &mut Image, switch: usize, values: &[(u16, u32)]) -> Result<(), NoMemory>
    ensures ranges { left.new.ranges ≡ left.old.ranges }
    ensures count { length left.new.settings ≡ length left.old.settings }
    ensures others { (k : ℕ) → k ≢ switch → slice_get left.new.settings k ≡ slice_get left.old.settings k }
    ensures kept { OnOk result ((settings : List TheSettings) → IsRegisterBank (placed_bank settings) → values.now ≡ kept_values settings
        → slice_get left.old.settings switch ≡ Some reset_bank.settings
        → slice_get left.new.settings switch ≡ Some settings) }
{
    for value in values {
        set_value(left, switch, value.0, value.1)?;
    }
    Ok(())
}

/// Sets a value at an address of a switch, where it can be set there: what can't isn't kept of any settings. The only error
/// is out of memory.
fn set_value(left: &mut Image, switch: usize, addr: u16, value: u32) -> Result<(), NoMemory>
    ensures ranges { left.new.ranges ≡ left.old.ranges }
    ensures set { IfOk result (λ _. left.new.settings ≡ (image_set left.old switch addr value).1.settings) }
    ensures refused { IfErr result (λ _. left.new.settings ≡ left.old.settings) }
{
    match left.set(switch, addr, value) {
        Ok(()) => Ok(()),
        Err(ImageFault::NoMemory) => Err(NoMemory),
        Err(ImageFault::NoNode) => Ok(()),
        Err(ImageFault::Register(_)) => Ok(()),
        Err(ImageFault::BadRange) => Ok(()),
    }
}
