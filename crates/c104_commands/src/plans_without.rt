//! The plan of a network without one of its wires.
ghost use Rattle.std.specs.{List.remove, Prelude.{IfOk, OnOk, Some, length, slice_get, ◌<◌, ◌≡◌}};
ghost use Rattle.c104_commands.specs.{WithoutWires.{without, without_wire}, LeftGroups.AreTakenOut};
ghost use Rattle.c104_plan.specs.{PlanParts.{empty_plan, plan_of}, Plans.IsPlan, Ports.{AreApart, IsSwitchPort}};

use crate::plan_copies::{copy_switches, copy_terminals, wires_without};
use crate::rows_without::{continues_past, fill_rows};
use c104_plan::{Network, Parts, Plan, Shape, Wire};
use c104_token::NoMemory;
use std::alloc::Global;

/// The plan of a network without the wire of this number, one of those between its switches, whose links are taken out of
/// their groups. It is a plan by hand: its own lines say what is set at the links. The only error is out of memory.
#[tactic(auto, using(crate::proofs::WithoutKept::without_known))]
pub fn plan_without(alloc: Global, plan: &Plan, number: usize) -> Result<Plan, NoMemory>
    requires { number < length plan.now.wires }
    ensures plan { IfOk result (λ other. other ≡ without_wire plan.now number) }

    // Each end is a group by itself there, and of the other links of its switch two are in one group where they were,
    // and it isn't between them.
    ensures groups { IfOk result (AreTakenOut plan.now number) }
{
    let wire = wire_at(plan, number);
    let mut parts = Parts::new(alloc)?;
    fill(alloc, &mut parts, plan, number, wire)?;
    Ok(Plan::new(parts))
}

/// The wire of this number, between links of two switches.
#[tactic(auto, using(crate::proofs::WithoutKept::wire_known))]
fn wire_at(plan: &Plan, number: usize) -> Wire
    requires { number < length plan.now.wires }
    ensures wire { slice_get plan.now.wires number ≡ Some result }
    ensures here { IsSwitchPort (length plan.now.switches) result.here }
    ensures there { IsSwitchPort (length plan.now.switches) result.there }
    ensures apart { AreApart result.here result.there }
    ensures kept { IsPlan plan.now }
{
    plan.wires()[number]
}

/// The parts of a plan without lines become those of a plan without a wire.
fn fill(
    alloc: Global,
    parts: &mut Parts,
    plan: &Plan,
    number: usize,
    wire: Wire,
) -> Result<(), NoMemory>
    requires empty { plan_of parts.old ≡ empty_plan }
    requires number { number < length plan.now.wires }
    requires here { IsSwitchPort (length plan.now.switches) wire.here }
    requires there { IsSwitchPort (length plan.now.switches) wire.there }
    ensures { OnOk result (plan_of parts.new ≡ without plan.now number wire) }
{
    parts.header = plan.header();
    parts.cap = plan.cap();
    let network = network_without(alloc, plan, number)?;
    parts.fill(network, Shape::Hand);
    parts.continues = continues_past(alloc, plan, wire)?;
    fill_others(alloc, parts, plan)?;
    fill_rows(parts, plan, wire)
}

/// What a plan joins, without a wire.
fn network_without(alloc: Global, plan: &Plan, number: usize) -> Result<Network, NoMemory>
    requires { number < length plan.now.wires }
    ensures switches { IfOk result (λ network. network.switches ≡ plan.now.switches) }
    ensures terminals { IfOk result (λ network. network.terminals ≡ plan.now.terminals) }
    ensures wires { IfOk result (λ network. network.wires.items ≡ remove plan.now.wires number) }
{
    let wires = wires_without(alloc, plan, number)?;
    let switches = copy_switches(alloc, plan)?;
    let terminals = copy_terminals(alloc, plan)?;
    Ok(Network {
        switches,
        terminals,
        wires,
    })
}

/// What a plan's lines set at links, but for groups and rows, joins these parts.
fn fill_others(alloc: Global, parts: &mut Parts, plan: &Plan) -> Result<(), NoMemory>
    ensures { OnOk result (plan_of parts.new ≡ record (plan_of parts.old) {
      deletes = plan.now.deletes;
      bases = plan.now.bases;
      randoms = plan.now.randoms;
    }) }
{
    parts.deletes = Vec::from_slice(alloc, plan.deletes())?;
    parts.bases = Vec::from_slice(alloc, plan.bases())?;
    parts.randoms = Vec::from_slice(alloc, plan.randoms())?;
    Ok(())
}
