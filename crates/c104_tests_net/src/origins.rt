use crate::calls::{drop_run, finish, is_quiet, placed_network, retire, rounds, send};
use c104_net::{Net, Origin, Origins, Run};
use std::alloc::Global;
use std::process::Abort;
use std::test::Fail;

/// Two terminals on one switch, whose headers stay.
const PLAN: &[u8] = b"switch A\nterminal a A.0\nterminal b A.1\nrow A.0 1 0\nrow A.0 2 1\n";

/// Of two equal packets each is told by its own number, and nothing arrived at the terminal that sent them.
#[test]
fn equal_packets(rt: HostRuntime) -> Result<(), Fail> {
    let lists = told(&rt, rt.alloc())?;
    let due = [
        Origin {
            terminal: 0,
            number: 0,
        },
        Origin {
            terminal: 0,
            number: 1,
        },
    ];
    assert!(rt; tell(lists.as_slice(), &due));
    Ok(())
}

/// What is told of a run in which the first terminal sends two equal packets.
fn told(rt: &impl Abort, alloc: Global) -> Result<Vec<Vec<Origin>>, Fail> {
    let mut net = placed_network(alloc, PLAN)?;
    match send_twice(rt, alloc, &mut net) {
        Ok(()) => told_at_the_end(alloc, net),
        Err(error) => {
            retire(net);
            Err(error)
        }
    }
}

fn told_at_the_end(alloc: Global, net: Net) -> Result<Vec<Vec<Origin>>, Fail> {
    let run = finish(net);
    let lists = origins_of(alloc, &run);
    drop_run(run);
    lists
}

fn send_twice(rt: &impl Abort, alloc: Global, net: &mut Net) -> Result<(), Fail> {
    send(alloc, net, 0, "01 aa eop")?;
    send(alloc, net, 0, "01 aa eop")?;
    rounds(net, 20)?;
    assert!(rt; is_quiet(net));
    Ok(())
}

/// The origins of what arrived, with nothing promised.
fn origins_of(alloc: Global, run: &Run) -> Result<Vec<Vec<Origin>>, Fail> {
    Ok(run.origins(alloc)?)
}

/// Whether there are two lists, of which the first is empty and the second has these origins.
fn tell(lists: &[Vec<Origin>], due: &[Origin]) -> bool {
    match lists {
        [first, second] => first.is_empty() && second.as_slice() == due,
        _ => false,
    }
}
