//! A network at the start of a script.
//!
//! A run starts by a load, as a real network would. That this comes to the network placed with the image, and that no
//! load of a new network meets a full trace, is proved; so what a script shows is told without a word of the load.
ghost use Rattle.std.specs.Prelude.{IfOk, ◌≡◌};
ghost use Rattle.{c104_plan.specs.PlanImage.Fits, c104_run.specs.{NetRecords.fresh_record, Network.{new_network, placed_network}}};
ghost use Rattle.c104_event.specs.declared.faults.EventFault.TheVariants as event_fault;
ghost use Rattle.c104_tools.specs.declared.faults.LoadFault.TheVariants as fault;

use crate::tools::load_net;
use c104_net::TracedNet;
use c104_plan::{Image, Plan};
use c104_token::NoMemory;
use c104_tools::LoadFault;
use std::alloc::Global;

/// The network of a plan, into which an image that fits it was loaded, at the start of a run. The only error is
/// out of memory.
pub fn start_net(alloc: Global, plan: &Plan, image: &Image) -> Result<TracedNet, NoMemory>
    requires { Fits image.now plan.now }
    ensures { IfOk result (λ net. net ≡ fresh_record (placed_network plan.now image.now)) }
{
    let mut net = TracedNet::new(alloc, plan)?;
    match begin_loaded(&mut net, plan, image) {
        Ok(()) => Ok(net),
        Err(NoMemory) => {
            net.retire();
            Err(NoMemory)
        }
    }
}

/// Loads an image into a new network, and begins a run. The only error is out of memory.
fn begin_loaded(net: &mut TracedNet, plan: &Plan, image: &Image) -> Result<(), NoMemory>
    requires fits { Fits image.now plan.now }
    requires new { net.old ≡ fresh_record (new_network plan.now) }
    ensures { IfOk result (λ _. net.new ≡ fresh_record (placed_network plan.now image.now)) }
{
    // The proof reads what every network with its record keeps, and every plan.
    let _plan = net.told_plan();
    let _switches = plan.switches();
    match load_net(net, image) {
        Ok(()) => {
            net.begin();
            Ok(())
        }
        Err(fault) => Err(out_of_memory(fault)),
    }
}

/// The one fault that a load of a new network has.
fn out_of_memory(_fault: LoadFault) -> NoMemory
    requires { _fault ≡ fault.Port event_fault.NoMemory }
{
    NoMemory
}
