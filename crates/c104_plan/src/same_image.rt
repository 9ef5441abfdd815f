//! Whether two images are the same.
ghost use Rattle.std.specs.Prelude.{◌≡◌, ◌↔◌, IsTrue};
ghost use Rattle.c104_plan.specs.RowPlans.{has_same_mode};

use crate::image::Image;
use crate::switch_image::SwitchImage;
use c104_interval::{Row, Table};
use c104_regs::PackedSettings;

impl Image {
    ghost use Rattle.std.specs.Prelude.{◌≡◌, ◌↔◌, IsTrue};

    /// Whether both have the same ranges, and the same settings at each link.
    pub fn is_same(&self, other: &Image) -> bool
        ensures { IsTrue result ↔ (self.now ≡ other.now) }
    {
        are_same_ranges(self.ranges.as_slice(), other.ranges.as_slice())
            && are_same_switches(self.switches(), other.switches())
    }
}

/// Whether these switches have the same settings.
fn are_same_switches(switches: &[SwitchImage], others: &[SwitchImage]) -> bool
    ensures { IsTrue result ↔ (switches.now ≡ others.now) }
{
    if switches.len() != others.len() {
        return false;
    }
    for (number, switch) in switches.iter().enumerate() {
        if !are_same_links(switch.settings(), others[number].settings()) {
            return false;
        }
    }
    true
}

/// Whether these settings of links are the same.
fn are_same_links(settings: &[PackedSettings], others: &[PackedSettings]) -> bool
    ensures { IsTrue result ↔ (settings.now ≡ others.now) }
{
    if settings.len() != others.len() {
        return false;
    }
    for (number, own) in settings.iter().enumerate() {
        if !is_same_link(own, &others[number]) {
            return false;
        }
    }
    true
}

/// Whether the settings of two links are the same.
fn is_same_link(settings: &PackedSettings, other: &PackedSettings) -> bool
    ensures { IsTrue result ↔ (settings.now ≡ other.now) }
{
    has_same_mode(settings, other)
        && settings.random_base() == other.random_base()
        && settings.random_range() == other.random_range()
        && is_same_table(&settings.table(), &other.table())
}

/// Whether the modes of two links are the same: what is set there but numbers and rows.
fn has_same_mode(settings: &PackedSettings, other: &PackedSettings) -> bool
    ensures { result ≡ has_same_mode settings.now other.now }
{
    settings.two_byte() == other.two_byte()
        && settings.delete_header() == other.delete_header()
        && settings.randomize() == other.randomize()
        && settings.continue_group() == other.continue_group()
}

/// Whether two tables are the same.
fn is_same_table(table: &Table, other: &Table) -> bool
    ensures { IsTrue result ↔ (table.now ≡ other.now) }
{
    table.base == other.base && are_same_rows(table.rows.as_slice(), other.rows.as_slice())
}

/// Whether these rows are the same.
fn are_same_rows(rows: &[Row], others: &[Row]) -> bool
    ensures { IsTrue result ↔ (rows.now ≡ others.now) }
{
    rows == others
}

/// Whether these ranges are the same.
fn are_same_ranges(ranges: &[(u32, u32)], others: &[(u32, u32)]) -> bool
    ensures { IsTrue result ↔ (ranges.now ≡ others.now) }
{
    ranges == others
}
