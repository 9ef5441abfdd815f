//! One table for the inputs of a switch: the lines that name a switch and no link of it.
ghost use Rattle.std.specs.Prelude.{OnOk, ◌<◌, ◌≡◌, ◌≤◌, length};
ghost use Rattle.c104_describe.specs.SharedTables.{base_joined, bases_joined, lines_of, row_joined, rows_joined, shared_out};
ghost use Rattle.c104_describe.specs.SharedTables.{switches_joined, table_joined, tables_joined};
ghost use Rattle.c104_plan.specs.{PlanParts.plan_of, Plans.most_switches, Ports.IsSwitchPort, RowPlans.is_plan_select};
ghost use Rattle.c104_plan.specs.declared.ports.Port.TheVariants as port_kind;
ghost use Rattle.c104_regs.specs.declared.registers.TheConstants.{LINKS as link_count};

use c104_interval::{ROWS, Select};
use c104_plan::{LABELS, Parts, PlanBase, PlanRow, Port};
use c104_regs::LINKS;
use std::alloc::{AllocError, Global};

/// The base of a switch's table.
#[derive(Clone, Copy)]
pub(crate) struct SharedBase {
    /// The switch, by number.
    pub(crate) switch: usize,
    /// The first label of the table's first interval, 0 to 65535.
    pub(crate) base: u32,
}

/// A row of a switch's table.
#[derive(Clone, Copy)]
pub(crate) struct SharedRow {
    /// The switch, by number.
    pub(crate) switch: usize,
    /// The first header past the row's interval, 0 to 65536.
    pub(crate) limit: u32,
    /// What a header inside the interval selects, where no row before has it inside its own.
    pub(crate) select: Select,
}

/// The lines that name a switch and no link of it, in order.
#[derive(Drop)]
pub(crate) struct Shared {
    pub(crate) bases: Vec<SharedBase>,
    pub(crate) rows: Vec<SharedRow>,
}

impl Shared {
    ghost use Rattle.std.specs.Prelude.{not, ◌≡◌};
    ghost use Rattle.c104_describe.specs.SharedTables.{has_shared, has_shared_base, lines_of, nothing_shared, shared_row_count};

    /// No line yet.
    pub(crate) fn new(alloc: Global) -> Self
        ensures { lines_of result ≡ nothing_shared }
    {
        Shared {
            bases: Vec::new(alloc),
            rows: Vec::new(alloc),
        }
    }

    /// Whether there are lines.
    pub(crate) fn has_lines(&self) -> bool
        ensures { result ≡ has_shared (lines_of self.now) }
    {
        !self.bases.is_empty() || !self.rows.is_empty()
    }

    /// Whether a switch's table has a base.
    #[tactic(auto, unfolding(crate::specs::SharedTables::has_shared_base))]
    pub(crate) fn has_base(&self, switch: usize) -> bool
        ensures { result ≡ has_shared_base (lines_of self.now).bases switch }
    {
        self.bases.iter().any(|base| base.switch == switch)
    }

    /// How many rows a switch's table has.
    #[tactic(auto, unfolding(crate::specs::SharedTables::shared_row_count))]
    pub(crate) fn row_count(&self, switch: usize) -> usize
        ensures { result ≡ shared_row_count (lines_of self.now).rows switch }
    {
        self.rows.iter().filter(|row| row.switch == switch).count()
    }
}

/// The lines that name a switch alone are written out behind all others.
pub(crate) fn write_out(parts: &mut Parts, shared: &Shared) -> Result<(), AllocError>
    requires { length (plan_of parts.old).switches ≤ most_switches }
    ensures { OnOk result (plan_of parts.new ≡ shared_out (lines_of shared.now) (plan_of parts.old)) }
{
    if shared.has_lines() {
        join_switches(parts, shared)?;
    }
    Ok(())
}

/// The inputs of all switches have their switch's table where they are to.
fn join_switches(parts: &mut Parts, shared: &Shared) -> Result<(), AllocError>
    requires { length (plan_of parts.old).switches ≤ most_switches }
    ensures { OnOk result (plan_of parts.new
        ≡ switches_joined (lines_of shared.now) (length (plan_of parts.old).switches) (plan_of parts.old)) }
{
    let switches = parts.switches.len();
    for switch in 0..switches {
        join_tables(parts, shared, switch)?;
    }
    Ok(())
}

/// The inputs of a switch have its table where they are to.
fn join_tables(parts: &mut Parts, shared: &Shared, switch: usize) -> Result<(), AllocError>
    requires { switch < most_switches }
    ensures { OnOk result (plan_of parts.new ≡ tables_joined (lines_of shared.now) switch link_count (plan_of parts.old)) }
{
    for link in 0..LINKS {
        join_table(parts, shared, switch, link)?;
    }
    Ok(())
}

/// An input has its switch's table where it is to: it has a terminal or a wire, and no row of its own.
#[tactic(auto, unfolding(crate::specs::SharedTables::table_joined))]
fn join_table(
    parts: &mut Parts,
    shared: &Shared,
    switch: usize,
    link: usize,
) -> Result<(), AllocError>
    requires { IsSwitchPort most_switches (port_kind.Switch switch link) }
    ensures { OnOk result (plan_of parts.new ≡ table_joined (lines_of shared.now) switch link (plan_of parts.old)) }
{
    let port = Port::Switch(switch, link);
    if parts.row_count(port) == 0 && parts.is_linked(port) {
        join_bases(parts, switch, port, shared.bases.as_slice())?;
        join_rows(parts, switch, port, shared.rows.as_slice())?;
    }
    Ok(())
}

/// The base of a switch's table, if it has one, joins those of an input that has none.
fn join_bases(
    parts: &mut Parts,
    switch: usize,
    port: Port,
    bases: &[SharedBase],
) -> Result<(), AllocError>
    ensures { OnOk result (plan_of parts.new ≡ bases_joined switch port bases.now (plan_of parts.old)) }
{
    for base in bases {
        if base.switch == switch {
            join_base(parts, port, base.base)?;
        }
    }
    Ok(())
}

/// A base of an input joins the plan, where it may have one.
fn join_base(parts: &mut Parts, port: Port, base: u32) -> Result<(), AllocError>
    ensures { OnOk result (plan_of parts.new ≡ base_joined port base (plan_of parts.old)) }
{
    if base < LABELS && !parts.has_base(port) {
        parts.bases.push(PlanBase { port, base })?;
    }
    Ok(())
}

/// The rows of a switch's table join those of an input.
fn join_rows(
    parts: &mut Parts,
    switch: usize,
    port: Port,
    rows: &[SharedRow],
) -> Result<(), AllocError>
    requires { IsSwitchPort most_switches port }
    ensures { OnOk result (plan_of parts.new ≡ rows_joined switch port rows.now (plan_of parts.old)) }
{
    for row in rows {
        if row.switch == switch {
            join_row(parts, port, row.limit, row.select)?;
        }
    }
    Ok(())
}

/// A row of an input joins the plan, where it may have one.
fn join_row(parts: &mut Parts, port: Port, limit: u32, select: Select) -> Result<(), AllocError>
    requires { IsSwitchPort most_switches port }
    ensures { OnOk result (plan_of parts.new ≡ row_joined port limit select (plan_of parts.old)) }
{
    if parts.row_count(port) < ROWS && limit <= LABELS && is_plan_select(select) {
        parts.rows.push(PlanRow {
            port,
            limit,
            select,
        })?;
    }
    Ok(())
}

/// Whether a row may select it.
fn is_plan_select(select: Select) -> bool
    ensures { result ≡ is_plan_select select }
{
    match select {
        Select::Link(link) => usize::from(link) < LINKS,
        Select::Discard | Select::Sink => true,
    }
}
