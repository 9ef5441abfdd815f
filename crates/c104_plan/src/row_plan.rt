//! The plan by hand that has an image.
ghost use Rattle.std.specs.Prelude.{IfOk, IsTrue, OnOk, length, true, ◌<◌, ◌↔◌, ◌≡◌, ◌≤◌};
ghost use Rattle.c104_plan.specs.{PlanImage.{AreSettings, Fits, IsImage, hand_image}, PlanParts.plan_of, Plans.{IsPlan, most_switches}};
ghost use Rattle.c104_plan.specs.{Ports.IsSwitchPort, RowPlans.{IsOfNetwork, base_given, continue_given, delete_given, deletes_given}};
ghost use Rattle.c104_plan.specs.RowPlans.{is_deleting, is_plan_select, is_reset_row, link_given, links_given, random_given, row_given};
ghost use Rattle.c104_plan.specs.RowPlans.{row_plan, rows_given, switches_given, unset_plan, used_rows};
ghost use Rattle.c104_plan.specs.declared.plans.Shape.TheVariants.{Hand as by_hand};
ghost use Rattle.c104_regs.specs.declared.registers.TheConstants.{LINKS as link_count};
ghost use Rattle.c104_plan.specs.declared.ports.Port.TheVariants as port_kind;

use crate::hand::hand_image;
use crate::image::Image;
use crate::limits::LABELS;
use crate::parts::Parts;
use crate::plans::{Plan, PlanBase, PlanRandom, PlanRow, Shape, Terminal};
use crate::ports::Port;
use crate::row_list::RowList;
use crate::switch_image::SwitchImage;
use c104_interval::{ROWS, Row, Select};
use c104_regs::{LINKS, PackedSettings};
use c104_token::NoMemory;
use std::alloc::{AllocError, Global};

impl Image {
    ghost use Rattle.std.specs.Prelude.{IfOk, IfSome, IsTrue, is_some, ◌↔◌, ◌≡◌};
    ghost use Rattle.c104_plan.specs.{PlanImage.{Fits, hand_image}, RowPlans.{IsOfNetwork, row_plan}};
    ghost use Rattle.c104_plan.specs.declared.plans.Shape.TheVariants.{Hand as by_hand};

    /// The plan whose own lines give this image over the network of a plan that the image fits: it has that
    /// plan's headers, buffers, switches, terminals and wires, the image's ranges, and `continue`, `delete`, `base`, `row`
    /// and `random` lines. Rows past the last that isn't as after a reset have no line.
    ///
    /// None where those lines don't give the image, by a comparison of the two: a link has headers of another length than
    /// the plan says of it, a link that no terminal is on deletes headers, a link 0 continues a group, or the numbers of
    /// random headers are set and there are none. The only error is out of memory.
    pub fn row_plan(&self, alloc: Global, plan: &Plan) -> Result<Option<Plan>, NoMemory>
        requires { Fits self.now plan.now }
        ensures made { IfOk result (λ made. IsTrue (is_some made) ↔ (hand_image (row_plan plan.now self.now) ≡ self.now)) }
        ensures rows { IfOk result (λ made. IfSome made (λ rows. rows ≡ row_plan plan.now self.now)) }
        ensures image { IfOk result (λ made. IfSome made (λ rows. hand_image rows ≡ self.now)) }
        ensures network { IfOk result (λ made. IfSome made (IsOfNetwork plan.now)) }
        ensures hand { IfOk result (λ made. IfSome made (λ rows. rows.shape ≡ by_hand)) }
    {
        let rows = row_plan(alloc, self, plan)?;
        if has_image(alloc, &rows, self)? {
            Ok(Some(rows))
        } else {
            Ok(None)
        }
    }
}

/// Whether a plan's own lines give an image.
fn has_image(alloc: Global, plan: &Plan, image: &Image) -> Result<bool, NoMemory>
    ensures { IfOk result (λ has. IsTrue has ↔ (hand_image plan.now ≡ image.now)) }
{
    let own = hand_image(alloc, plan)?;
    Ok(own.is_same(image))
}

/// The plan by hand that has an image, if one has.
fn row_plan(alloc: Global, image: &Image, plan: &Plan) -> Result<Plan, AllocError>
    requires { Fits image.now plan.now }
    ensures rows { IfOk result (λ rows. rows ≡ row_plan plan.now image.now) }
    ensures network { IfOk result (IsOfNetwork plan.now) }
    ensures hand { IfOk result (λ rows. rows.shape ≡ by_hand) }
{
    let parts = row_parts(alloc, image, plan)?;
    Ok(Plan { parts })
}

/// The parts of that plan.
#[tactic(auto, unfolding(crate::specs::RowPlans::row_plan))]
fn row_parts(alloc: Global, image: &Image, plan: &Plan) -> Result<Parts, AllocError>
    requires { Fits image.now plan.now }
    ensures parts { IfOk result (λ parts. plan_of parts ≡ row_plan plan.now image.now) }
    ensures kept { IsPlan plan.now }
    ensures image { IfOk result (λ parts. IsImage image.now) }
{
    let count = plan.terminals().len();
    let switches = image.switches();
    let mut parts = unset_parts(alloc, image, plan)?;
    give_lines(&mut parts, switches, count)?;
    Ok(parts)
}

/// The lines of these switches, and of these many terminals, join a plan.
fn give_lines(parts: &mut Parts, switches: &[SwitchImage], count: usize) -> Result<(), AllocError>
    requires { length switches.now ≤ most_switches }
    ensures { OnOk result (plan_of parts.new
        ≡ deletes_given switches.now count (switches_given switches.now (length switches.now) (plan_of parts.old))) }
{
    give_switches(parts, switches)?;
    give_deletes(parts, switches, count)
}

/// The parts of a plan with an image's ranges, in which nothing is set.
fn unset_parts(alloc: Global, image: &Image, plan: &Plan) -> Result<Parts, AllocError>
    requires { length image.now.ranges ≤ length plan.now.terminals }
    ensures parts { IfOk result (λ parts. plan_of parts ≡ unset_plan image.now.ranges plan.now) }
    ensures image { IfOk result (λ parts. IsImage image.now) }
{
    let rows = RowList::new(alloc)?;
    let mut network = plan.parts.copy_network()?;
    network.terminals.set_ranges(image.ranges.as_slice());
    Ok(Parts {
        header: plan.parts.header,
        cap: plan.parts.cap,
        shape: Shape::Hand,
        switches: network.switches,
        terminals: network.terminals,
        wires: network.wires,
        continues: Vec::new(alloc),
        deletes: Vec::new(alloc),
        bases: Vec::new(alloc),
        rows,
        randoms: Vec::new(alloc),
    })
}

/// The lines of these switches join a plan.
fn give_switches(parts: &mut Parts, switches: &[SwitchImage]) -> Result<(), AllocError>
    requires few { length switches.now ≤ most_switches }
    ensures { OnOk result (plan_of parts.new ≡ switches_given switches.now (length switches.now) (plan_of parts.old)) }
{
    for switch in 0..switches.len() {
        give_links(parts, switch, switches[switch].settings())?;
    }
    Ok(())
}

/// The lines of a switch's links join a plan.
fn give_links(
    parts: &mut Parts,
    switch: usize,
    settings: &[PackedSettings],
) -> Result<(), AllocError>
    requires inside { switch < most_switches }
    requires all { AreSettings settings.now }
    ensures { OnOk result (plan_of parts.new ≡ links_given switch settings.now link_count (plan_of parts.old)) }
{
    for link in 0..LINKS {
        give_link(parts, switch, link, &settings[link])?;
    }
    Ok(())
}

/// The lines of a link join a plan.
#[tactic(auto, unfolding(crate::specs::RowPlans::link_given))]
fn give_link(
    parts: &mut Parts,
    switch: usize,
    link: usize,
    settings: &PackedSettings,
) -> Result<(), AllocError>
    requires { IsSwitchPort most_switches (port_kind.Switch switch link) }
    ensures { OnOk result (plan_of parts.new ≡ link_given switch link settings.now (plan_of parts.old)) }
{
    let port = Port::Switch(switch, link);
    give_continue(parts, switch, link, settings.continue_group())?;
    let table = settings.table();
    give_base(parts, port, table.base)?;
    give_rows(parts, port, table.rows.as_slice())?;
    if settings.randomize() {
        give_random(parts, port, settings.random_base(), settings.random_range())?;
    }
    Ok(())
}

/// A link's `continue` line joins a plan, where it continues a group.
fn give_continue(
    parts: &mut Parts,
    switch: usize,
    link: usize,
    continues: bool,
) -> Result<(), AllocError>
    ensures { OnOk result (plan_of parts.new ≡ continue_given switch link continues (plan_of parts.old)) }
{
    let port = Port::Switch(switch, link);
    if continues && 0 < link && !parts.is_continued(port) {
        parts.continues.push(port)?;
    }
    Ok(())
}

/// An input's `base` line joins a plan, where the base isn't 0.
fn give_base(parts: &mut Parts, port: Port, base: u32) -> Result<(), AllocError>
    ensures { OnOk result (plan_of parts.new ≡ base_given port base (plan_of parts.old)) }
{
    if 0 < base && base < LABELS && !parts.has_base(port) {
        parts.bases.push(PlanBase { port, base })?;
    }
    Ok(())
}

/// The `row` lines of an input join a plan.
fn give_rows(parts: &mut Parts, port: Port, rows: &[Row]) -> Result<(), AllocError>
    requires { IsSwitchPort most_switches port }
    ensures { OnOk result (plan_of parts.new ≡ rows_given port rows.now (used_rows rows.now) (plan_of parts.old)) }
{
    let used = used_rows(rows);
    for row in 0..used {
        give_row(parts, port, rows[row])?;
    }
    Ok(())
}

/// A `row` line of an input joins a plan.
fn give_row(parts: &mut Parts, port: Port, row: Row) -> Result<(), AllocError>
    requires { IsSwitchPort most_switches port }
    ensures { OnOk result (plan_of parts.new ≡ row_given port row (plan_of parts.old)) }
{
    if parts.row_count(port) < ROWS && row.limit <= LABELS && is_plan_select(row.select) {
        parts.rows.push(PlanRow {
            port,
            limit: row.limit,
            select: row.select,
        })?;
    }
    Ok(())
}

/// An input's `random` line joins a plan.
fn give_random(parts: &mut Parts, port: Port, base: u32, range: u32) -> Result<(), AllocError>
    ensures { OnOk result (plan_of parts.new ≡ random_given port true base range (plan_of parts.old)) }
{
    if base < LABELS && range <= LABELS && !parts.has_random(port) {
        parts.randoms.push(PlanRandom { port, base, range })?;
    }
    Ok(())
}

/// The `delete` lines of these many terminals join a plan.
fn give_deletes(parts: &mut Parts, switches: &[SwitchImage], count: usize) -> Result<(), AllocError>
    ensures { OnOk result (plan_of parts.new ≡ deletes_given switches.now count (plan_of parts.old)) }
{
    for number in 0..count {
        give_delete(parts, switches, number)?;
    }
    Ok(())
}

/// A terminal's `delete` line joins a plan, where headers are deleted at its link.
fn give_delete(parts: &mut Parts, switches: &[SwitchImage], number: usize) -> Result<(), AllocError>
    ensures { OnOk result (plan_of parts.new ≡ delete_given switches.now number (plan_of parts.old)) }
{
    let deletes = match parts.terminals.as_slice().get(number) {
        Some(terminal) => is_deleting(switches, terminal),
        None => false,
    };
    if deletes && !parts.is_deleted(number) {
        parts.deletes.push(number)?;
    }
    Ok(())
}

/// Whether headers are deleted at the link that a terminal is on.
fn is_deleting(switches: &[SwitchImage], terminal: &Terminal) -> bool
    ensures { result ≡ is_deleting switches.now terminal.now }
{
    match switches.get(terminal.switch) {
        Some(switch) => match switch.settings().get(terminal.link) {
            Some(settings) => settings.delete_header(),
            None => false,
        },
        None => false,
    }
}

/// Whether a `row` line may select it.
fn is_plan_select(select: Select) -> bool
    ensures { result ≡ is_plan_select select }
{
    match select {
        Select::Link(link) => usize::from(link) < LINKS,
        Select::Discard | Select::Sink => true,
    }
}

/// How many of these rows need lines: all up to the last that isn't as after a reset.
fn used_rows(rows: &[Row]) -> usize
    ensures used { result ≡ used_rows rows.now }
    ensures within { result ≤ length rows.now }
{
    let mut used = 0;
    for (number, row) in rows.iter().enumerate() {
        if !is_reset_row(*row) {
            used = number + 1;
        }
    }
    used
}

/// Whether a row is as after a reset.
fn is_reset_row(row: Row) -> bool
    ensures { result ≡ is_reset_row row }
{
    row.limit == 0 && matches!(row.select, Select::Sink)
}
