//! The image of a plan whose switches have tables that are given.
ghost use Rattle.std.specs.{List.range_with_len, Prelude.{All, IfOk, length, map, ◌*◌, ◌<◌, ◌≡◌}};
ghost use Rattle.c104_plan.specs.LabelledImages.{labelled_image, labelled_settings, labelled_switch, port_labelled_image};
ghost use Rattle.c104_plan.specs.{LabelledImages.{port_grouped, port_labelled_switch, port_table, table_in, with_group}, PlanImage.{AreSettings, Fits}, Plans.IsPlan};
ghost use Rattle.{c104_plan.specs.{Plans.{IsRange, is_continued, rows_of}, Ports.is_any_at}, c104_regs.specs.Ranges.IsTableInRange};
ghost use Rattle.c104_regs.specs.declared.registers.TheConstants.{LINKS as LINK_COUNT};

use crate::hand::{continues_of_switch, rows_of_switch, settings_of};
use crate::image::{Image, ranges};
use crate::plans::{Plan, PlanRow};
use crate::ports::Port;
use crate::switch_image::SwitchImage;
use c104_interval::Table;
use c104_regs::{LINKS, Settings};
use c104_token::NoMemory;
use std::alloc::{AllocError, Global};

impl Plan {
    ghost use Rattle.std.specs.Prelude.{IfOk, map, ◌≡◌};
    ghost use Rattle.c104_plan.specs.{PlanImage.range_of, Plans.IsPlan};

    /// The range of each terminal, by its first label and how many they are. The only error is out of memory.
    pub fn ranges(&self, alloc: Global) -> Result<Vec<(u32, u32)>, NoMemory>
        ensures ranges { IfOk result (λ ranges. ranges.items ≡ map range_of self.now.terminals) }
        ensures kept { IsPlan self.now }
    {
        let ranges = ranges(alloc, self)?;
        Ok(ranges)
    }
}

impl Image {
    /// The image of a plan with a range for each terminal and a table for each switch: a port that has a wire
    /// has its switch's table, and all else is as the plan's own lines say, as in `hand_image`. The only error
    /// is out of memory.
    pub fn with_tables(
        alloc: Global,
        plan: &Plan,
        ranges: Vec<(u32, u32)>,
        tables: &[Table],
    ) -> Result<Self, NoMemory>
        requires terminals { length ranges.items ≡ length plan.now.terminals }
        requires ranges { All (λ range. IsRange range.0 range.1) ranges.items }
        requires switches { length tables.now ≡ length plan.now.switches }
        requires tables { All IsTableInRange tables.now }
        ensures image { IfOk result (λ image. image ≡ labelled_image plan.now ranges.items tables.now) }
        ensures fits { IfOk result (λ image. Fits image plan.now) }
    {
        let switches = labelled_switches(alloc, plan, tables)?;
        Ok(Image { ranges, switches })
    }

    /// The image of a plan with the ranges of this one, and with a table for each link of each switch, by switch and
    /// then by link: a port that has a wire has its own table. `groups` says of each link whether it continues the group
    /// of the link before it where the plan's own lines don't. All else is as these lines say, as in `hand_image`. The
    /// only error is out of memory.
    pub fn with_port_tables(
        &self,
        alloc: Global,
        plan: &Plan,
        tables: &[Table],
        groups: &[bool],
    ) -> Result<Self, NoMemory>
        requires terminals { length self.now.ranges ≡ length plan.now.terminals }
        requires ports { length tables.now ≡ length plan.now.switches * LINK_COUNT }
        requires tables { All IsTableInRange tables.now }
        requires groups { length groups.now ≡ length plan.now.switches * LINK_COUNT }
        ensures image { IfOk result (λ image. image
            ≡ port_labelled_image plan.now self.now.ranges (port_table tables.now) (port_grouped groups.now)) }
        ensures fits { IfOk result (λ image. Fits image plan.now) }
    {
        let switches = port_labelled_switches(alloc, plan, tables, groups)?;
        let ranges = Vec::from_slice(alloc, self.ranges.as_slice())?;
        Ok(Image { ranges, switches })
    }
}

/// What each switch is to hold, whose links have tables of their own.
fn port_labelled_switches(
    alloc: Global,
    plan: &Plan,
    tables: &[Table],
    groups: &[bool],
) -> Result<Vec<SwitchImage>, AllocError>
    requires ports { length tables.now ≡ length plan.now.switches * LINK_COUNT }
    requires tables { All IsTableInRange tables.now }
    requires groups { length groups.now ≡ length plan.now.switches * LINK_COUNT }
    ensures settings { IfOk result (λ switches. switches.items
        ≡ map (λ s. port_labelled_switch plan.now (port_table tables.now s) (port_grouped groups.now s) s) (range_with_len 0 (length plan.now.switches))) }
    ensures kept { IsPlan plan.now }
{
    let mut switches = Vec::new(alloc);
    for switch in 0..plan.switches().len() {
        switches.push(port_labelled_switch(alloc, plan, tables, groups, switch)?)?;
    }
    Ok(switches)
}

/// What a switch is to hold, whose links have tables of their own.
fn port_labelled_switch(
    alloc: Global,
    plan: &Plan,
    tables: &[Table],
    groups: &[bool],
    switch: usize,
) -> Result<SwitchImage, AllocError>
    requires switch { switch < length plan.now.switches }
    requires ports { length tables.now ≡ length plan.now.switches * LINK_COUNT }
    requires tables { All IsTableInRange tables.now }
    requires groups { length groups.now ≡ length plan.now.switches * LINK_COUNT }
    ensures { IfOk result (λ image. image ≡ port_labelled_switch plan.now (port_table tables.now switch) (port_grouped groups.now switch) switch) }
{
    let settings = port_labelled_links(alloc, plan, tables, groups, switch)?;
    SwitchImage::with_settings(alloc, settings.as_slice())
}

/// What is set at the links of a switch, which have tables of their own.
fn port_labelled_links(
    alloc: Global,
    plan: &Plan,
    tables: &[Table],
    groups: &[bool],
    switch: usize,
) -> Result<Vec<Settings>, AllocError>
    requires switch { switch < length plan.now.switches }
    requires ports { length tables.now ≡ length plan.now.switches * LINK_COUNT }
    requires tables { All IsTableInRange tables.now }
    requires groups { length groups.now ≡ length plan.now.switches * LINK_COUNT }
    ensures settings { IfOk result (λ settings. settings.items ≡ port_labelled_switch plan.now (port_table tables.now switch) (port_grouped groups.now switch) switch) }
    ensures all { IfOk result (λ settings. AreSettings settings.items) }
{
    let rows = rows_of_switch(alloc, plan, switch)?;
    let continues = continues_of_switch(alloc, plan, switch)?;
    let mut settings = Vec::new(alloc);
    for link in 0..LINKS {
        let port = Port::Switch(switch, link);
        let rows = rows.as_slice();
        let continues = continues.as_slice();
        let table = tables[switch * LINKS + link];
        let grouped = groups[switch * LINKS + link];
        settings.push(with_group(
            labelled_settings(plan, rows, continues, table, port),
            grouped,
        ))?;
    }
    Ok(settings)
}

/// Settings of a link, which continues a group where this says so, or they do.
fn with_group(settings: Settings, grouped: bool) -> Settings
    ensures { result ≡ with_group grouped settings }
{
    let mut settings = settings;
    settings.continue_group = grouped || settings.continue_group;
    settings
}

/// What each switch is to hold.
fn labelled_switches(
    alloc: Global,
    plan: &Plan,
    tables: &[Table],
) -> Result<Vec<SwitchImage>, AllocError>
    requires switches { length tables.now ≡ length plan.now.switches }
    requires tables { All IsTableInRange tables.now }
    ensures settings { IfOk result (λ switches. switches.items
        ≡ map (λ s. labelled_switch plan.now (table_in tables.now s) s) (range_with_len 0 (length plan.now.switches))) }
    ensures kept { IsPlan plan.now }
{
    let mut switches = Vec::new(alloc);
    for switch in 0..plan.switches().len() {
        switches.push(labelled_switch(alloc, plan, tables[switch], switch)?)?;
    }
    Ok(switches)
}

/// What a switch of this table is to hold.
fn labelled_switch(
    alloc: Global,
    plan: &Plan,
    table: Table,
    switch: usize,
) -> Result<SwitchImage, AllocError>
    requires { IsTableInRange table }
    ensures { IfOk result (λ image. image ≡ labelled_switch plan.now table switch) }
{
    let settings = labelled_links(alloc, plan, table, switch)?;
    SwitchImage::with_settings(alloc, settings.as_slice())
}

/// What is set at the links of a switch of this table.
fn labelled_links(
    alloc: Global,
    plan: &Plan,
    table: Table,
    switch: usize,
) -> Result<Vec<Settings>, AllocError>
    requires { IsTableInRange table }
    ensures settings { IfOk result (λ settings. settings.items ≡ labelled_switch plan.now table switch) }
    ensures all { IfOk result (λ settings. AreSettings settings.items) }
{
    let rows = rows_of_switch(alloc, plan, switch)?;
    let continues = continues_of_switch(alloc, plan, switch)?;
    let mut settings = Vec::new(alloc);
    for link in 0..LINKS {
        let port = Port::Switch(switch, link);
        let rows = rows.as_slice();
        let continues = continues.as_slice();
        settings.push(labelled_settings(plan, rows, continues, table, port))?;
    }
    Ok(settings)
}

/// What is set at a port of a switch of this table, by rows among which are those of the port, and by links that
/// continue groups, among which the port is if it does.
#[tactic(auto, unfolding(crate::specs::LabelledImages::labelled_settings))]
fn labelled_settings(
    plan: &Plan,
    rows: &[PlanRow],
    continues: &[Port],
    table: Table,
    port: Port,
) -> Settings
    requires rows { rows_of port rows.now ≡ rows_of port plan.now.rows }
    requires continues { is_any_at (λ q. q) continues.now port ≡ is_continued plan.now port }
    ensures { result ≡ labelled_settings plan.now table port }
{
    let mut settings = settings_of(plan, rows, continues, port);
    if plan.peer(port).is_some() {
        settings.table = table;
    }
    settings
}
