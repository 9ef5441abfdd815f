//! The image that a plan's own lines give.
ghost use Rattle.std.specs.{List.{find, range_with_len}, Prelude.{IfOk, filter, length, map, slice_get, ◌≡◌}};
ghost use Rattle.c104_plan.specs.PlanImage.{AreSettings, Fits, base_of, hand_image, is_random_of, settings_of, switch_settings, table_of};
ghost use Rattle.c104_plan.specs.{Plans.{IsPlan, deletes_at, is_continued, is_on, rows_of}, Ports.{is_any_at, is_of_switch}};

use crate::image::{Image, ranges};
use crate::plans::{Plan, PlanRandom, PlanRow};
use crate::ports::Port;
use crate::switch_image::SwitchImage;
use c104_interval::{Row, Table};
use c104_regs::{LINKS, Settings};
use c104_token::NoMemory;
use std::alloc::{AllocError, Global};

/// The image that a plan's own lines give: each terminal's range, two-byte headers at wired links where the
/// plan has them, the links at which headers are deleted, those that continue a group, the rows of each
/// input, row by row from 0 on, and its random headers. All else is as after a reset. The only error is out
/// of memory.
pub fn hand_image(alloc: Global, plan: &Plan) -> Result<Image, NoMemory>
    ensures image { IfOk result (λ image. image ≡ hand_image plan.now) }
    ensures fits { IfOk result (λ image. Fits image plan.now) }
{
    let ranges = ranges(alloc, plan)?;
    let switches = hand_switches(alloc, plan)?;
    Ok(Image { ranges, switches })
}

/// What each switch is to hold.
fn hand_switches(alloc: Global, plan: &Plan) -> Result<Vec<SwitchImage>, AllocError>
    ensures settings { IfOk result (λ switches. switches.items
        ≡ map (switch_settings plan.now) (range_with_len 0 (length plan.now.switches))) }
    ensures kept { IsPlan plan.now }
{
    let mut switches = Vec::new(alloc);
    for switch in 0..plan.switches().len() {
        switches.push(hand_switch(alloc, plan, switch)?)?;
    }
    Ok(switches)
}

/// What a switch is to hold.
fn hand_switch(alloc: Global, plan: &Plan, switch: usize) -> Result<SwitchImage, AllocError>
    ensures { IfOk result (λ image. image ≡ switch_settings plan.now switch) }
{
    let settings = switch_settings(alloc, plan, switch)?;
    SwitchImage::with_settings(alloc, settings.as_slice())
}

/// What is set at a switch's links.
fn switch_settings(alloc: Global, plan: &Plan, switch: usize) -> Result<Vec<Settings>, AllocError>
    ensures settings { IfOk result (λ settings. settings.items ≡ switch_settings plan.now switch) }
    ensures all { IfOk result (λ settings. AreSettings settings.items) }
{
    let rows = rows_of_switch(alloc, plan, switch)?;
    let continues = continues_of_switch(alloc, plan, switch)?;
    let mut settings = Vec::new(alloc);
    for link in 0..LINKS {
        let port = Port::Switch(switch, link);
        settings.push(settings_of(plan, rows.as_slice(), continues.as_slice(), port))?;
    }
    Ok(settings)
}

/// The rows of a switch's inputs, so that the rows of one input are looked for among these alone.
pub(crate) fn rows_of_switch(
    alloc: Global,
    plan: &Plan,
    switch: usize,
) -> Result<Vec<PlanRow>, AllocError>
    ensures rows { IfOk result (λ rows.
        rows.items ≡ filter (λ row. is_of_switch switch row.port) plan.now.rows) }
    ensures kept { IsPlan plan.now }
{
    plan.rows()
        .iter()
        .filter(|row| is_of_switch(row.port, switch))
        .copied()
        .collect(alloc)
}

/// The links of a switch that continue groups, so that one link is looked for among these alone.
pub(crate) fn continues_of_switch(
    alloc: Global,
    plan: &Plan,
    switch: usize,
) -> Result<Vec<Port>, AllocError>
    ensures { IfOk result (λ ports.
        ports.items ≡ filter (λ port. is_of_switch switch port) plan.now.continues) }
{
    plan.continues()
        .iter()
        .filter(|port| is_of_switch(**port, switch))
        .copied()
        .collect(alloc)
}

/// Whether a port is one of a switch.
fn is_of_switch(port: Port, switch: usize) -> bool
    ensures { result ≡ is_of_switch switch port }
{
    match port {
        Port::Switch(own, _) => own == switch,
        Port::Terminal(_) => false,
    }
}

/// What is set at a port of a switch, by rows among which are those of the port, and by links that continue
/// groups, among which the port is if it does.
#[tactic(auto, unfolding(crate::specs::PlanImage::settings_of))]
pub(crate) fn settings_of(plan: &Plan, rows: &[PlanRow], continues: &[Port], port: Port) -> Settings
    requires rows { rows_of port rows.now ≡ rows_of port plan.now.rows }
    requires continues { is_any_at (λ q. q) continues.now port ≡ is_continued plan.now port }
    ensures { result ≡ settings_of plan.now port }
{
    let mut settings = Settings::plain(table_of(plan, rows, port));
    settings.two_byte = plan.header() == 2 && plan.peer(port).is_some();
    settings.delete_header = deletes_at(plan, port);
    settings.continue_group = is_among(continues, port);
    if let Some(random) = random_of(plan, port) {
        settings.randomize = true;
        settings.random_base = random.base;
        settings.random_range = random.range;
    }
    settings
}

/// Whether a port is one of these.
#[tactic(auto, unfolding(crate::specs::Ports::is_any_at))]
fn is_among(ports: &[Port], port: Port) -> bool
    ensures { result ≡ is_any_at (λ q. q) ports.now port }
{
    ports.iter().any(|other| other.is_same(port))
}

/// Whether headers are deleted at a port: one of the plan's deletes is of a terminal on it.
#[tactic(auto, unfolding(crate::specs::Plans::deletes_at))]
fn deletes_at(plan: &Plan, port: Port) -> bool
    ensures { result ≡ deletes_at plan.now port }
{
    plan.deletes()
        .iter()
        .any(|terminal| is_on(plan, *terminal, port))
}

/// Whether there is a terminal of this number, and it is on this port.
fn is_on(plan: &Plan, terminal: usize, port: Port) -> bool
    ensures { result ≡ is_on port (slice_get plan.now.terminals terminal) }
{
    match plan.terminals().get(terminal) {
        Some(terminal) => terminal.host_port().is_same(port),
        None => false,
    }
}

/// The base of an input's table.
#[tactic(auto, unfolding(crate::specs::PlanImage::base_of))]
fn base_of(plan: &Plan, port: Port) -> u32
    ensures base { result ≡ base_of plan.now port }
    ensures kept { IsPlan plan.now }
{
    for base in plan.bases() {
        if base.port.is_same(port) {
            return base.base;
        }
    }
    0
}

/// The random headers of an input.
fn random_of(plan: &Plan, port: Port) -> Option<PlanRandom>
    ensures { result ≡ find (is_random_of port) plan.now.randoms }
{
    for random in plan.randoms() {
        if random.port.is_same(port) {
            return Some(*random);
        }
    }
    None
}

/// The table of an input, by rows among which are its own.
#[tactic(auto, using(crate::proofs::PlanTables::room_in))]
fn table_of(plan: &Plan, rows: &[PlanRow], port: Port) -> Table
    requires { rows_of port rows.now ≡ rows_of port plan.now.rows }
    ensures { result ≡ table_of plan.now port }
{
    let mut table = Table::reset();
    table.base = base_of(plan, port);
    let mut count = 0;
    for row in rows {
        if row.port.is_same(port) {
            table.rows[count] = Row {
                limit: row.limit,
                select: row.select,
            };
            count += 1;
        }
    }
    table
}
