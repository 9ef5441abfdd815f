//! Lines that ask the debugger.
ghost use Rattle.std.specs.Prelude.{◌≡◌, map, option_map};
ghost use Rattle.c104_script.specs.Script.{dump_line, link_line, peek_line, peek_words, poke_line, poke_words, probe_line};
ghost use Rattle.c104_script.specs.Script.{register_line, table_line, value_words, verify_line};

use crate::faults::LineFault;
use crate::hex_words::read_register;
use crate::places::{Request, find_input, find_switch};
use crate::probes::Probe;
use crate::register_words::{find_place, is_row_due, read_register_place};
use crate::words::{ProbeVerb, read_place};
use c104_event::EventFault;
use c104_plan::Plan;

/// Reads the words after the first.
pub(crate) fn read_probe(
    plan: &Plan,
    verb: ProbeVerb,
    words: &[&[u8]],
) -> Result<Request, LineFault>
    ensures { result ≡ probe_line verb plan.now (map (λ word. word.now) words.now) }
{
    match (verb, words) {
        (ProbeVerb::Peek, words) => read_peek_words(plan, words),
        (ProbeVerb::Poke, words) => read_poke_words(plan, words),
        (ProbeVerb::Link, [node]) => read_link(plan, node),
        (ProbeVerb::Table, [node]) => read_table(plan, node),
        (ProbeVerb::Verify, []) => Ok(Request::Probed(Probe::Verify)),
        (ProbeVerb::Verify, [word]) => read_verify(word),
        (ProbeVerb::Dump, [node]) => read_dump(plan, node),
        _ => Err(LineFault::BadShape),
    }
}

/// Reads the words behind `peek`.
fn read_peek_words(plan: &Plan, words: &[&[u8]]) -> Result<Request, LineFault>
    ensures { result ≡ peek_words plan.now (map (λ word. word.now) words.now) }
{
    match words {
        [node, word] => read_peek(plan, node, word, None),
        [node, word, row] => read_peek(plan, node, word, Some(row)),
        _ => Err(LineFault::BadShape),
    }
}

/// Reads `peek S ADDR`, `peek S NAME`, `peek S.l NAME` or `peek S.l NAME K`.
fn read_peek(
    plan: &Plan,
    node: &[u8],
    word: &[u8],
    row: Option<&[u8]>,
) -> Result<Request, LineFault>
    ensures { result ≡ peek_line plan.now node.now word.now (option_map (λ word. word.now) row.entry) }
{
    let found = read_register_words(plan, node, word, row)?;
    Ok(match found {
        Ok((switch, addr)) => Request::Probed(Probe::Peek { switch, addr }),
        Err(fault) => Request::Refused(fault),
    })
}

/// Reads the words behind `poke`.
fn read_poke_words(plan: &Plan, words: &[&[u8]]) -> Result<Request, LineFault>
    ensures { result ≡ poke_words plan.now (map (λ word. word.now) words.now) }
{
    match words {
        [node, word, rest @ ..] => read_value_words(plan, node, word, rest),
        _ => Err(LineFault::BadShape),
    }
}

/// Reads the words behind those for a switch and for a register.
fn read_value_words(
    plan: &Plan,
    node: &[u8],
    word: &[u8],
    words: &[&[u8]],
) -> Result<Request, LineFault>
    ensures { result ≡ value_words plan.now node.now word.now (map (λ word. word.now) words.now) }
{
    let [first, rest @ ..] = words else {
        return Err(LineFault::BadShape);
    };
    match rest {
        [] => read_poke(plan, node, word, None, first),
        [value] => read_poke(plan, node, word, Some(first), value),
        _ => Err(LineFault::BadShape),
    }
}

/// Reads `poke` with the same, and `VALUE` behind it.
fn read_poke(
    plan: &Plan,
    node: &[u8],
    word: &[u8],
    row: Option<&[u8]>,
    value: &[u8],
) -> Result<Request, LineFault>
    ensures { result ≡ poke_line plan.now node.now word.now (option_map (λ word. word.now) row.entry) value.now }
{
    let found = read_register_words(plan, node, word, row)?;
    let value = read_register(value)?;
    Ok(match found {
        Ok((switch, addr)) => Request::Probed(Probe::Poke {
            switch,
            addr,
            value,
        }),
        Err(fault) => Request::Refused(fault),
    })
}

/// Reads the words that stand for a register: that of a switch, and those for one of its registers. It gives the switch and the
/// register's address, or why there is none.
fn read_register_words(
    plan: &Plan,
    node: &[u8],
    word: &[u8],
    row: Option<&[u8]>,
) -> Result<Result<(usize, u16), EventFault>, LineFault>
    ensures { result ≡ register_line plan.now node.now word.now (option_map (λ word. word.now) row.entry) }
{
    if !is_row_due(word, row) {
        return Err(LineFault::BadShape);
    }
    let place = read_place(node)?;
    let register = read_register_place(word, row)?;
    Ok(find_place(plan, place, register))
}

/// Reads `link S.l`.
fn read_link(plan: &Plan, node: &[u8]) -> Result<Request, LineFault>
    ensures { result ≡ link_line plan.now node.now }
{
    let place = read_place(node)?;
    Ok(match find_input(plan, place) {
        Ok((switch, link)) => Request::Probed(Probe::Link { switch, link }),
        Err(fault) => Request::Refused(fault),
    })
}

/// Reads `table S.l`.
fn read_table(plan: &Plan, node: &[u8]) -> Result<Request, LineFault>
    ensures { result ≡ table_line plan.now node.now }
{
    let place = read_place(node)?;
    Ok(match find_input(plan, place) {
        Ok((switch, link)) => Request::Probed(Probe::Table { switch, link }),
        Err(fault) => Request::Refused(fault),
    })
}

/// Reads the word behind `verify`, which is `all`.
fn read_verify(word: &[u8]) -> Result<Request, LineFault>
    ensures { result ≡ verify_line word.now }
{
    if word == b"all".as_slice() {
        Ok(Request::Probed(Probe::VerifyAll))
    } else {
        Err(LineFault::BadShape)
    }
}

/// Reads `dump S`.
fn read_dump(plan: &Plan, node: &[u8]) -> Result<Request, LineFault>
    ensures { result ≡ dump_line plan.now node.now }
{
    let place = read_place(node)?;
    Ok(match find_switch(plan, place) {
        Ok(switch) => Request::Probed(Probe::Dump { switch }),
        Err(fault) => Request::Refused(fault),
    })
}
