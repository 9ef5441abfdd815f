use crate::calls::{
    drop_run, finish, is_quiet, labelled_network, rounds, send, switch_count, trace,
};
use c104_net::{Act, Entry, Net, Run};
use c104_switch::ActionOf;
use c104_token::Token;
use std::alloc::Global;
use std::process::Abort;
use std::test::Fail;

const MESH: &[u8] = b"mesh 3 2 1\n";

const CUBE: &[u8] = b"cube 3 1\n";

/// A packet goes along its column first and then along the row, over three wires between switches.
#[test]
fn over_a_mesh(rt: HostRuntime) -> Result<(), Fail> {
    let due = [(0, 4), (3, 0), (4, 1), (5, 1)];
    assert!(rt;
        crosses(
            &rt,
            rt.alloc(),
            MESH,
            0,
            "05 aa eop",
            Token::Byte(0x05),
            &due
        )?
    );
    Ok(())
}

/// A packet goes by the highest bit that differs, over three wires between switches.
#[test]
fn over_a_cube(rt: HostRuntime) -> Result<(), Fail> {
    let due = [(1, 3), (5, 2), (7, 1), (6, 0)];
    assert!(rt;
        crosses(
            &rt,
            rt.alloc(),
            CUBE,
            1,
            "06 aa eop",
            Token::Byte(0x06),
            &due
        )?
    );
    Ok(())
}

/// Whether in a labelled network in which one packet is sent its first token comes in at these inputs. The run
/// goes on to where all is quiet.
fn crosses(
    rt: &impl Abort,
    alloc: Global,
    text: &[u8],
    terminal: usize,
    packet: &str,
    token: Token,
    due: &[(usize, usize)],
) -> Result<bool, Fail> {
    let mut net = labelled_network(alloc, text)?;
    let result = carry(rt, alloc, &mut net, terminal, packet);
    let run = finish(net);
    let entered = enters(&run, token, due);
    drop_run(run);
    result?;
    Ok(entered)
}

fn carry(
    rt: &impl Abort,
    alloc: Global,
    net: &mut Net,
    terminal: usize,
    packet: &str,
) -> Result<(), Fail> {
    send(alloc, net, terminal, packet)?;
    rounds(net, 40)?;
    assert!(rt; is_quiet(net));
    Ok(())
}

/// Whether a token came in at exactly these inputs, given by switch and link, one after the other.
fn enters(run: &Run, token: Token, due: &[(usize, usize)]) -> bool {
    enters_in_order(run, token, due) && all_entries(run, token) == due.len()
}

/// Whether a token first came in at these inputs one after the other.
fn enters_in_order(run: &Run, token: Token, due: &[(usize, usize)]) -> bool {
    let mut last = None;
    for &(switch, link) in due {
        let ticket = entered(run, switch, link, token);
        if ticket.is_none() || ticket <= last {
            return false;
        }
        last = ticket;
    }
    true
}

/// The ticket at which a token first came in at an input.
fn entered(run: &Run, switch: usize, link: usize, token: Token) -> Option<u64> {
    for entry in trace(run, switch)? {
        if enters_at(entry, token) == Some(link) {
            return Some(entry.ticket);
        }
    }
    None
}

/// How often a token came in at all switches.
fn all_entries(run: &Run, token: Token) -> usize {
    let mut met = 0usize;
    for switch in 0..switch_count(run) {
        met = met.saturating_add(entries(run, switch, token));
    }
    met
}

/// How often a token came in at a switch.
fn entries(run: &Run, switch: usize, token: Token) -> usize {
    let Some(trace) = trace(run, switch) else {
        return 0;
    };
    let mut met = 0usize;
    for entry in trace {
        if enters_at(entry, token).is_some() {
            met = met.saturating_add(1);
        }
    }
    met
}

/// The link at which an entry tells that this token came in.
fn enters_at(entry: &Entry, token: Token) -> Option<usize> {
    match &entry.act {
        Act::Step(ActionOf::Enter(link, met)) if *met == token => Some(*link),
        _ => None,
    }
}
