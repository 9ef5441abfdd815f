//! An input's table, as the debugger reads it.
ghost use Rattle.std.specs.{List.list_any, Prelude.{Err, IfOk, IfSome, IsTrue, MatchOption, false, length, map, not, true, ◌<◌, ◌↔◌, ◌≡◌}};
ghost use Rattle.std.specs.Prelude.{◌≤◌};
ghost use Rattle.{c104_regs.specs.Values.{select_code, select_of}, c104_tools.specs.Outcomes.{Outcome, any_value, rows_with, table_made}};
ghost use Rattle.c104_tools.specs.{Outcomes.table_peeks, Ports.Commanded, Reads.AreSeen, Tables.{is_select, row_codes, row_limits}};
ghost use Rattle.c104_tools.specs.Tables.{table_addresses, table_values};
ghost use Rattle.c104_tools.specs.declared.faults.LoadFault.TheVariants as fault;

use crate::faults::LoadFault;
use crate::ports::ControlPort;
use crate::reading::read_run;
use c104_interval::{ROWS, Row, Select, Table};
use c104_regs::{Address, LINKS, Register};

/// What a row selects by this number: a link below 32, at 32 to discard, and at 64 the sink.
fn select_at(code: u32) -> Option<Select>
    ensures { MatchOption result (is_select code ≡ false) (λ select. (select_code select ≡ code) × (select ≡ select_of code) × (is_select code ≡ true)) }
{
    match code {
        0..=31 => Some(Select::Link(code as u8)),
        32 => Some(Select::Discard),
        64 => Some(Select::Sink),
        _ => None,
    }
}

/// The rows of these limits and of what these numbers select. None where a number selects nothing.
fn rows_of(limits: &[u32], codes: &[u32]) -> Option<[Row; ROWS]>
    requires limits { length limits.now ≡ ROWS }
    requires codes { length codes.now ≡ ROWS }
    ensures read { MatchOption result
        (IsTrue (list_any (λ code. not (is_select code)) codes.now))
        (λ rows. (map row_limits rows ≡ limits.now) × (map row_codes rows ≡ codes.now)) }
    ensures made { IfSome result (λ rows. rows ≡ rows_with limits.now codes.now) }
    ensures good { IfSome result (λ _. list_any (λ code. not (is_select code)) codes.now ≡ false) }
{
    let mut rows = [Row::RESET; ROWS];
    for k in 0..ROWS {
        let Some(select) = select_at(codes[k]) else {
            return None;
        };
        rows[k] = Row {
            limit: limits[k],
            select,
        };
    }
    Some(rows)
}

/// Reads the table of an input, of a link 0 to 31: its base and limits, and then what the rows
/// select, by address. Where the port shows its switches, as a network does, these are the values that the
/// registers of that switch have.
///
/// NoSwitch where the port has no such switch; Refused where it refuses a peek, BadReply where a
/// reply answers no peek or where a row selects nothing that there is, and Port where the port
/// doesn't answer.
pub fn read_table<P: ControlPort>(
    port: &mut P,
    switch: usize,
    link: usize,
) -> Result<Table, LoadFault>
    requires { link < LINKS }
    ensures unknown { (result ≡ Err fault.NoSwitch) ↔ (P.switch_count port.old ≤ switch) }
    ensures not_asked { P.switch_count port.old ≤ switch → port.new ≡ port.old }
    ensures asked { switch < P.switch_count port.old →
        Outcome (Commanded P.commands P.switch_count P.shown P.unanswered P.due) any_value (table_made switch) port.old
        (table_peeks switch link) result port.new }
    ensures due { switch < P.switch_count port.old →
        Outcome P.due any_value (table_made switch) port.old (table_peeks switch link) result port.new }
    ensures seen { switch < P.switch_count port.old → IfOk result (λ table.
        AreSeen (P.shown port.old) switch (table_addresses link) (table_values table)) }
{
    if switch >= port.switches() {
        return Err(LoadFault::NoSwitch);
    }
    let first = Address::AtLink(link, Register::Base).number();
    let mut limits = [0; 37];
    read_run(port, switch, first, &mut limits)?;
    let second = Address::AtLink(link, Register::Select(0)).number();
    let mut codes = [0; ROWS];
    read_run(port, switch, second, &mut codes)?;
    match rows_of(&limits[1..], &codes) {
        Some(rows) => Ok(Table {
            base: limits[0],
            rows,
        }),
        None => Err(LoadFault::BadReply(switch)),
    }
}
