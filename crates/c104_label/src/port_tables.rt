//! A table for each link, by ways that go up and then down, and the groups of links.
ghost use Rattle.std.specs.Prelude.{IfOk, IfSome, length, ◌*◌, ◌<◌, ◌≡◌};
ghost use Rattle.{c104_label.specs.UpDownLabels.ArePortTables, c104_regs.specs.Ranges.IsTableInRange};
ghost use Rattle.c104_regs.specs.declared.registers.TheConstants.{LINKS as LINK_COUNT};

use crate::exits::{Exits, Plot, all_exits};
use crate::fabric::Fabric;
use crate::numbers::count_at;
use crate::reports::UpDownWay;
use crate::way_rows::segment_table;
use c104_interval::Table;
use c104_plan::Plan;
use c104_regs::LINKS;
use std::alloc::{AllocError, Global};

/// A table for each link, by switch and then by link.
#[derive(Drop)]
pub(crate) struct PortTables {
    pub(crate) tables: Vec<Table>,
    /// Whether all are of shortest ways.
    pub(crate) is_shortest: bool,
}

/// A table for each link, by switch and then by link, and groups of links.
#[derive(Drop)]
pub(crate) struct PortLabels {
    pub(crate) tables: Vec<Table>,
    /// Whether links continue groups.
    pub(crate) groups: Vec<bool>,
    /// The ways that the tables take.
    pub(crate) way: UpDownWay,
}

/// The table of a link.
#[derive(Clone, Copy)]
struct PortTable {
    table: Table,
    /// Whether it is of shortest ways.
    is_shortest: bool,
}

/// The table of each link. None where one needs more rows than a table has.
pub(crate) fn port_tables(
    alloc: Global,
    plan: &Plan,
    fabric: &Fabric,
    plot: &Plot,
) -> Result<Option<PortTables>, AllocError>
    ensures { IfOk result (λ found. IfSome found (λ made. ArePortTables plan.now made.tables.items)) }
{
    let down = all_exits(alloc, fabric, plot, true)?;
    let others = all_exits(alloc, fabric, plot, false)?;
    tables_by(
        alloc,
        plan,
        fabric,
        plot,
        down.as_slice(),
        others.as_slice(),
    )
}

/// The same by the exits of all switches, from inputs to which packets came down and from others.
fn tables_by(
    alloc: Global,
    plan: &Plan,
    fabric: &Fabric,
    plot: &Plot,
    down: &[Exits],
    others: &[Exits],
) -> Result<Option<PortTables>, AllocError>
    ensures { IfOk result (λ found. IfSome found (λ made. ArePortTables plan.now made.tables.items)) }
{
    let mut tables = Vec::new(alloc);
    let mut is_shortest = true;
    for place in 0..plan.switches().len() * LINKS {
        let (switch, link) = (place / LINKS, place % LINKS);
        let exits = if plot.ways.is_up(switch, link) {
            down
        } else {
            others
        };
        let Some(made) = port_table(alloc, fabric, exits, switch, link)? else {
            return Ok(None);
        };
        tables.push(made.table)?;
        is_shortest = is_shortest && made.is_shortest;
    }
    Ok(Some(PortTables {
        tables,
        is_shortest,
    }))
}

/// The table of a link of a switch, by the exits of all switches: by shortest ways, or by any, where those need more rows
/// than a table has.
fn port_table(
    alloc: Global,
    fabric: &Fabric,
    exits: &[Exits],
    switch: usize,
    link: usize,
) -> Result<Option<PortTable>, AllocError>
    ensures { IfOk result (λ found. IfSome found (λ made. IsTableInRange made.table)) }
{
    if fabric.peer(switch, link).is_none() {
        return Ok(Some(PortTable {
            table: no_rows(),
            is_shortest: true,
        }));
    }
    match exits.get(switch) {
        Some(exits) => table_by(alloc, exits, link),
        None => Ok(None),
    }
}

/// The same by the exits of the switch.
fn table_by(alloc: Global, exits: &Exits, link: usize) -> Result<Option<PortTable>, AllocError>
    ensures { IfOk result (λ found. IfSome found (λ made. IsTableInRange made.table)) }
{
    if let Some(table) = segment_table(alloc, exits.shortest.as_slice(), link)? {
        return Ok(Some(PortTable {
            table,
            is_shortest: true,
        }));
    }
    match segment_table(alloc, exits.any.as_slice(), link)? {
        Some(table) => Ok(Some(PortTable {
            table,
            is_shortest: false,
        })),
        None => Ok(None),
    }
}

/// The table of no rows.
pub(crate) fn no_rows() -> Table
    ensures { IsTableInRange result }
{
    Table::reset()
}

/// Whether each link continues a group, by switch and then by link, where bits say so for each switch.
pub(crate) fn group_flags(
    alloc: Global,
    plan: &Plan,
    continues: &[u32],
) -> Result<Vec<bool>, AllocError>
    ensures { IfOk result (λ flags. length flags.items ≡ length plan.now.switches * LINK_COUNT) }
{
    let mut flags = Vec::new(alloc);
    for place in 0..plan.switches().len() * LINKS {
        let bits = count_at(continues, place / LINKS);
        flags.push(bits & (1u32 << (place % LINKS)) != 0)?;
    }
    Ok(flags)
}
