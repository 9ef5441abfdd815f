//! What is set at links once a wire's ends are taken out of their groups.
ghost use Rattle.std.specs.Prelude.{IfOk, OnOk, [], length, ℕ, ◌<◌, ◌||◌, ◌≡◌};
ghost use Rattle.c104_commands.specs.WithoutWires.{continues_past, joins, link_after, other_link, row_past, rows_past, select_past};
ghost use Rattle.c104_plan.specs.{PlanParts.plan_of, Plans.{IsPlan, is_continued}, Ports.{IsSwitchPort, is_any_at, is_of_switch}};
ghost use Rattle.c104_regs.specs.declared.registers.TheConstants.{LINKS as link_count};

use c104_interval::Select;
use c104_plan::{Parts, Plan, PlanRow, Port, Wire};
use c104_regs::LINKS;
use c104_token::NoMemory;
use std::alloc::Global;

/// The links of a plan that continue groups, but for those by which an end of a wire is in one.
pub(crate) fn continues_past(alloc: Global, plan: &Plan, wire: Wire) -> Result<Vec<Port>, NoMemory>
    requires here { IsSwitchPort (length plan.now.switches) wire.here }
    requires there { IsSwitchPort (length plan.now.switches) wire.there }
    ensures { IfOk result (λ continues. continues.items ≡ continues_past wire plan.now.continues) }
{
    let mut continues = Vec::new(alloc);
    for port in plan.continues() {
        if !joins_either(wire, *port) {
            continues.push(*port)?;
        }
    }
    Ok(continues)
}

/// Whether that a link continues a group joins it to an end of a wire.
fn joins_either(wire: Wire, port: Port) -> bool
    requires here { (switches : ℕ) × IsSwitchPort switches wire.here }
    requires there { (switches : ℕ) × IsSwitchPort switches wire.there }
    ensures { result ≡ (joins wire.here port || joins wire.there port) }
{
    joins(wire.here, port) || joins(wire.there, port)
}

/// Whether that a link continues a group joins it to this link of a switch.
fn joins(link: Port, port: Port) -> bool
    requires { (switches : ℕ) × IsSwitchPort switches link }
    ensures { result ≡ joins link port }
{
    port.is_same(link) || port.is_same(link_after(link))
}

/// The link after one of a switch.
fn link_after(link: Port) -> Port
    requires { (switches : ℕ) × IsSwitchPort switches link }
    ensures { result ≡ link_after link }
{
    match link {
        Port::Switch(switch, link) => Port::Switch(switch, link + 1),
        Port::Terminal(_) => link,
    }
}

/// The rows of a plan, once both ends of a wire are out of their groups, join parts that have no row.
pub(crate) fn fill_rows(parts: &mut Parts, plan: &Plan, wire: Wire) -> Result<(), NoMemory>
    requires none { (plan_of parts.old).rows ≡ [] }
    requires here { IsSwitchPort (length plan.now.switches) wire.here }
    requires there { IsSwitchPort (length plan.now.switches) wire.there }
    ensures { OnOk result (plan_of parts.new
        ≡ record (plan_of parts.old) { rows = rows_past plan.now wire plan.now.rows }) }
{
    for row in plan.rows() {
        let past = row_past_both(plan, wire, row);
        parts.rows.push(past)?;
    }
    Ok(())
}

/// A row, once both ends of a wire are out of their groups.
fn row_past_both(plan: &Plan, wire: Wire, row: &PlanRow) -> PlanRow
    requires here { IsSwitchPort (length plan.now.switches) wire.here }
    requires there { IsSwitchPort (length plan.now.switches) wire.there }
    ensures { result ≡ row_past plan.now wire.there (row_past plan.now wire.here row.now) }
{
    let past = row_past(plan, wire.here, *row);
    row_past(plan, wire.there, past)
}

/// A row, once a link is out of its group.
fn row_past(plan: &Plan, link: Port, row: PlanRow) -> PlanRow
    requires { IsSwitchPort (length plan.now.switches) link }
    ensures { result ≡ row_past plan.now link row }
{
    match link {
        Port::Switch(switch, link) => {
            if is_of_switch(switch, row.port) {
                let select = select_past(plan, switch, link, row.select);
                PlanRow { select, ..row }
            } else {
                row
            }
        }
        Port::Terminal(_) => row,
    }
}

/// What a row of a switch selects, once a link is out of its group.
fn select_past(plan: &Plan, switch: usize, link: usize, select: Select) -> Select
    requires { link < link_count }
    ensures { result ≡ select_past plan.now switch link select }
{
    match select {
        Select::Link(own) => {
            if usize::from(own) == link {
                Select::Link(other_link(plan, switch, link))
            } else {
                select
            }
        }
        _ => select,
    }
}

/// Which link stands for what is left of the group of a link.
fn other_link(plan: &Plan, switch: usize, link: usize) -> u8
    requires { link < link_count }
    ensures { result ≡ other_link plan.now switch link }
{
    if link > 0 && is_continued(plan, Port::Switch(switch, link)) {
        return (link - 1) as u8;
    }
    if link + 1 < LINKS && is_continued(plan, Port::Switch(switch, link + 1)) {
        return (link + 1) as u8;
    }
    link as u8
}

/// Whether a link continues the group of the link before it.
#[tactic(auto, unfolding(c104_plan::specs::Ports::is_any_at))]
fn is_continued(plan: &Plan, port: Port) -> bool
    ensures { result ≡ is_continued plan.now port }
{
    plan.continues().iter().any(|other| other.is_same(port))
}

/// Whether a port is a link of this switch.
fn is_of_switch(switch: usize, port: Port) -> bool
    ensures { result ≡ is_of_switch switch port }
{
    match port {
        Port::Switch(own, _) => own == switch,
        Port::Terminal(_) => false,
    }
}
