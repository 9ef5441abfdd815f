//! The tables of a mesh, a torus, a cube or a folded Clos network, as its wires tell, with labels in the order of a tree.
//!
//! Each input has a table of its own, and wires that are equally good for all labels are a group.
ghost use Rattle.std.specs.Prelude.{IfOk, IfSome, length, ◌*◌, ◌≡◌};
ghost use Rattle.{c104_label.specs.UpDownLabels.{ArePortLabels, ArePortTables}, c104_regs.specs.Ranges.IsTableInRange};
ghost use Rattle.c104_regs.specs.declared.registers.TheConstants.{LINKS as LINK_COUNT};

use crate::exits::{add, add_own};
use crate::fabric::Fabric;
use crate::forests::Forest;
use crate::form_ways::{Input, links_to};
use crate::forms::{Wired, form_continues, form_of};
use crate::groups::whole_groups;
use crate::orders::depth_first;
use crate::port_tables::{PortLabels, group_flags, no_rows};
use crate::reports::UpDownWay;
use crate::way_rows::{Segment, segment_table};
use c104_interval::Table;
use c104_plan::{Plan, Port};
use c104_regs::LINKS;
use std::alloc::{AllocError, Global};

/// What tables are made by: the form of the network, and its switches in the order of their labels.
#[derive(Clone, Copy)]
struct Labels<'a> {
    wired: Wired,
    fabric: &'a Fabric,
    order: &'a [usize],
}

/// The table of each link, and whether it continues a group. None where the network has no form, or where a link needs
/// more rows than a table has.
pub(crate) fn form_labels(
    alloc: Global,
    plan: &Plan,
    forest: &Forest,
) -> Result<Option<PortLabels>, AllocError>
    ensures { IfOk result (λ found. IfSome found (λ labels. ArePortLabels plan.now labels.tables.items labels.groups.items)) }
{
    match form_of(plan) {
        Some(wired) => wired_labels(alloc, plan, forest, wired),
        None => Ok(None),
    }
}

/// The same of a form.
fn wired_labels(
    alloc: Global,
    plan: &Plan,
    forest: &Forest,
    wired: Wired,
) -> Result<Option<PortLabels>, AllocError>
    ensures { IfOk result (λ found. IfSome found (λ labels. ArePortLabels plan.now labels.tables.items labels.groups.items)) }
{
    let groups = form_groups(alloc, plan, wired)?;
    let Some(tables) = form_tables(alloc, plan, forest, wired)? else {
        return Ok(None);
    };
    Ok(Some(PortLabels {
        tables,
        groups,
        way: UpDownWay::Form,
    }))
}

/// Whether each link continues a group, by switch and then by link.
fn form_groups(alloc: Global, plan: &Plan, wired: Wired) -> Result<Vec<bool>, AllocError>
    ensures { IfOk result (λ flags. length flags.items ≡ length plan.now.switches * LINK_COUNT) }
{
    let mut continues = Vec::new(alloc);
    for switch in 0..plan.switches().len() {
        continues.push(form_continues(wired, switch))?;
    }
    group_flags(alloc, plan, continues.as_slice())
}

/// The table of each link, by switch and then by link.
fn form_tables(
    alloc: Global,
    plan: &Plan,
    forest: &Forest,
    wired: Wired,
) -> Result<Option<Vec<Table>>, AllocError>
    ensures { IfOk result (λ found. IfSome found (λ tables. ArePortTables plan.now tables.items)) }
{
    let fabric = Fabric::new(alloc, plan)?;
    let order = depth_first(alloc, 0, forest)?;
    let labels = Labels {
        wired,
        fabric: &fabric,
        order: order.as_slice(),
    };
    all_tables(alloc, plan, labels)
}

/// The same by what they are made by.
fn all_tables(
    alloc: Global,
    plan: &Plan,
    labels: Labels<'_>,
) -> Result<Option<Vec<Table>>, AllocError>
    ensures { IfOk result (λ found. IfSome found (λ tables. ArePortTables plan.now tables.items)) }
{
    let mut tables = Vec::new(alloc);
    for place in 0..plan.switches().len() * LINKS {
        let Some(table) = link_table(alloc, labels, place / LINKS, place % LINKS)? else {
            return Ok(None);
        };
        tables.push(table)?;
    }
    Ok(Some(tables))
}

/// The table of a link of a switch.
fn link_table(
    alloc: Global,
    labels: Labels<'_>,
    switch: usize,
    link: usize,
) -> Result<Option<Table>, AllocError>
    ensures { IfOk result (λ table. IfSome table IsTableInRange) }
{
    let came_by = match labels.fabric.peer(switch, link) {
        Some(Port::Switch(_, _)) => Some(link),
        Some(Port::Terminal(_)) => None,
        None => return Ok(Some(no_rows())),
    };
    let segments = segments(alloc, labels, Input { switch, came_by })?;
    segment_table(alloc, segments.as_slice(), link)
}

/// By which links labels leave an input.
fn segments(alloc: Global, labels: Labels<'_>, input: Input) -> Result<Vec<Segment>, AllocError> {
    let continues = form_continues(labels.wired, input.switch);
    let mut segments = Vec::new(alloc);
    for switch in labels.order {
        if *switch == input.switch {
            add_own(&mut segments, labels.fabric, *switch)?;
        } else {
            let links = links_to(labels.wired, input, *switch);
            add(
                &mut segments,
                labels.fabric.labels(*switch),
                whole_groups(links, continues),
                0,
            )?;
        }
    }
    Ok(segments)
}
