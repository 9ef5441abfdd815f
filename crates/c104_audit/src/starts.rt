//! Whether two nodes start alike.
ghost use Rattle.std.specs.Prelude.{◌≡◌, ◌↔◌, IsTrue};

use c104_interval::{Row, Table};
use c104_node::{NodeStart, TerminalStart};
use c104_regs::PackedSettings;
use c104_switch::{LinkStart, SwitchStart};

/// Whether both are the same start.
pub fn is_same_start(one: &NodeStart, other: &NodeStart) -> bool
    ensures { IsTrue result ↔ (one.now ≡ other.now) }
{
    match (one, other) {
        (NodeStart::Switch(one), NodeStart::Switch(other)) => is_same_switch(one, other),
        (NodeStart::Terminal(one), NodeStart::Terminal(other)) => is_same_terminal(one, other),
        _ => false,
    }
}

/// Whether both are the same start of a terminal.
fn is_same_terminal(one: &TerminalStart, other: &TerminalStart) -> bool
    ensures { IsTrue result ↔ (one.now ≡ other.now) }
{
    one.cap() == other.cap() && one.credit() == other.credit() && one.granted() == other.granted()
}

/// Whether both are the same start of a switch.
fn is_same_switch(one: &SwitchStart, other: &SwitchStart) -> bool
    ensures { IsTrue result ↔ (one.now ≡ other.now) }
{
    let registers = one.registers();
    let others = other.registers();
    registers.started() == others.started()
        && are_same_settings(registers.all_settings(), others.all_settings())
        && are_same_links(one.links(), other.links())
}

/// Whether all links start alike.
fn are_same_links(links: &[LinkStart], others: &[LinkStart]) -> bool
    ensures { IsTrue result ↔ (links.now ≡ others.now) }
{
    if links.len() != others.len() {
        return false;
    }
    for (number, own) in links.iter().enumerate() {
        if !is_same_link(own, &others[number]) {
            return false;
        }
    }
    true
}

/// Whether both are the same start of a link.
fn is_same_link(one: &LinkStart, other: &LinkStart) -> bool
    ensures { IsTrue result ↔ (one.now ≡ other.now) }
{
    one.cap == other.cap
        && one.granted == other.granted
        && one.credit == other.credit
        && one.sunk == other.sunk
        && one.short == other.short
}

/// Whether the same is set at all links.
fn are_same_settings(settings: &[PackedSettings], others: &[PackedSettings]) -> bool
    ensures { IsTrue result ↔ (settings.now ≡ others.now) }
{
    if settings.len() != others.len() {
        return false;
    }
    for (number, own) in settings.iter().enumerate() {
        if !is_same_setting(own, &others[number]) {
            return false;
        }
    }
    true
}

/// Whether the same is set at both links.
fn is_same_setting(one: &PackedSettings, other: &PackedSettings) -> bool
    ensures { IsTrue result ↔ (one.now ≡ other.now) }
{
    one.two_byte() == other.two_byte()
        && one.delete_header() == other.delete_header()
        && one.randomize() == other.randomize()
        && one.continue_group() == other.continue_group()
        && one.random_base() == other.random_base()
        && one.random_range() == other.random_range()
        && is_same_table(&one.table(), &other.table())
}

/// Whether both tables are the same.
fn is_same_table(one: &Table, other: &Table) -> bool
    ensures { IsTrue result ↔ (one.now ≡ other.now) }
{
    one.base == other.base && are_same_rows(&one.rows, &other.rows)
}

/// Whether these rows are the same.
fn are_same_rows(rows: &[Row], others: &[Row]) -> bool
    ensures { IsTrue result ↔ (rows.now ≡ others.now) }
{
    rows == others
}
