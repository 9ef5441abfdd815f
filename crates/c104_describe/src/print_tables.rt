//! Tables of switches, as a plan is printed.
ghost use Rattle.std.specs.{Prelude.{OnOk, [], map, filter, length, ◌++◌, ◌∷◌, ◌<◌, ◌≡◌}, String.string_bytes};
ghost use Rattle.c104_describe.specs.PlanPrint.{first_input, sentence, shared_base_words, shared_row_words, table_lines, tables_lines, text_of};
ghost use Rattle.c104_plan.specs.{Plans.{is_base_of, is_row_of}, Ports.is_of_switch};

use c104_plan::{Plan, PlanRow, Port, select_text};
use std::alloc::{AllocError, Global};

/// The lines of all switches, as if all inputs of each had one table, join the text.
pub(crate) fn add_tables(alloc: Global, text: &mut String, plan: &Plan) -> Result<(), AllocError>
    ensures { OnOk result (string_bytes text.new ≡
        string_bytes text.old ++ text_of (tables_lines plan.now (length plan.now.switches))) }
{
    for switch in 0..plan.switches().len() {
        add_table(alloc, text, plan, switch)?;
    }
    Ok(())
}

/// The lines of a switch, whose table is that of the input of its first row, join the text.
fn add_table(alloc: Global, text: &mut String, plan: &Plan, switch: usize) -> Result<(), AllocError>
    requires { switch < length plan.now.switches }
    ensures { OnOk result (string_bytes text.new ≡
        string_bytes text.old ++ text_of (table_lines plan.now switch (first_input switch plan.now.rows))) }
{
    if let Some(port) = first_input(plan.rows(), switch) {
        add_table_of(alloc, text, plan, switch, port)?;
    }
    Ok(())
}

/// The lines of a switch whose table is that of this input join the text.
fn add_table_of(
    alloc: Global,
    text: &mut String,
    plan: &Plan,
    switch: usize,
    port: Port,
) -> Result<(), AllocError>
    requires { switch < length plan.now.switches }
    ensures { OnOk result (string_bytes text.new ≡
        string_bytes text.old ++ text_of (map (shared_base_words plan.now switch) (filter (is_base_of port) plan.now.bases)
        ++ map (shared_row_words plan.now switch) (filter (is_row_of port) plan.now.rows))) }
{
    add_shared_base(alloc, text, plan, switch, port)?;
    add_shared_rows(alloc, text, plan, switch, port)?;
    Ok(())
}

/// The input of the first row of a switch.
fn first_input(rows: &[PlanRow], switch: usize) -> Option<Port>
    ensures { result ≡ first_input switch rows.now }
{
    for row in rows {
        if is_of_switch(row.port, switch) {
            return Some(row.port);
        }
    }
    None
}

/// Whether a port is a link of this switch.
fn is_of_switch(port: Port, switch: usize) -> bool
    ensures { result ≡ is_of_switch switch port }
{
    match port {
        Port::Switch(own, _) => own == switch,
        Port::Terminal(_) => false,
    }
}

/// The line of the base of an input, as that of its switch, joins the text.
fn add_shared_base(
    alloc: Global,
    text: &mut String,
    plan: &Plan,
    switch: usize,
    port: Port,
) -> Result<(), AllocError>
    requires { switch < length plan.now.switches }
    ensures { OnOk result (string_bytes text.new ≡
        string_bytes text.old ++ text_of (map (shared_base_words plan.now switch) (filter (is_base_of port) plan.now.bases))) }
{
    for base in plan.bases() {
        if base.port.is_same(port) {
            let name = plan.switch_name(switch);
            let first = base.base;
            let line = format!(in alloc; "base {name} {first}\n")?;
            text.push_str(line.as_str())?;
        }
    }
    Ok(())
}

/// The lines of the rows of an input, as those of its switch, join the text.
fn add_shared_rows(
    alloc: Global,
    text: &mut String,
    plan: &Plan,
    switch: usize,
    port: Port,
) -> Result<(), AllocError>
    requires { switch < length plan.now.switches }
    ensures { OnOk result (string_bytes text.new ≡
        string_bytes text.old ++ text_of (map (shared_row_words plan.now switch) (filter (is_row_of port) plan.now.rows))) }
{
    for row in plan.rows() {
        if row.port.is_same(port) {
            add_shared_row(alloc, text, plan, switch, row)?;
        }
    }
    Ok(())
}

/// The line of a row of an input, as one of its switch, joins the text.
fn add_shared_row(
    alloc: Global,
    text: &mut String,
    plan: &Plan,
    switch: usize,
    row: &PlanRow,
) -> Result<(), AllocError>
    requires { switch < length plan.now.switches }
    ensures { OnOk result (string_bytes text.new ≡
        string_bytes text.old ++ (sentence (shared_row_words plan.now switch row.now) ++ 0x0a ∷ [])) }
{
    let name = plan.switch_name(switch);
    let limit = row.limit;
    let select = select_text(alloc, row.select)?;
    let line = format!(in alloc; "row {name} {limit} {select}\n")?;
    text.push_str(line.as_str())
}
