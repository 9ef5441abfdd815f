//! The loader and the debugger over ports of one switch, and over a network.
use crate::calls::{
    begin, command, described_image, entry_count, has_arrived, load_image, new_network,
    placed_network, retire, rounds, send, verify_image, write,
};
use c104_control::ControlBytes;
use c104_event::EventFault;
use c104_interval::Table;
use c104_net::Net;
use c104_plan::Image;
use c104_switch::Switch;
use c104_token::Token;
use c104_tools::{Asked, ControlPort, LinkNumbers, LoadFault, read_link, read_table};
use std::alloc::Global;
use std::process::Abort;
use std::test::Fail;

/// Two terminals on one switch, with a row to each.
const PLAN: &[u8] = b"switch A\nterminal a A.0\nterminal b A.1\n\
    row A.0 1 0\nrow A.0 2 1\nrow A.1 1 0\nrow A.1 2 1\n";

/// Two switches with a terminal each, and a wire between them.
const PAIR: &[u8] = b"switch A\nswitch B\nterminal a A.0\nterminal b B.0\nwire A.1 B.1\n\
    row A.0 1 0\nrow A.0 2 1\nrow B.1 1 sink\nrow B.1 2 0\n";

/// What a link tells of itself where nothing has happened yet.
const IDLE: LinkNumbers = LinkNumbers {
    sunk: 0,
    short: 0,
    input_level: 0,
    output_level: 0,
    credit: 0,
    granted: 0,
    owner: 0,
};

/// A port of one switch, which keeps what it was asked.
struct Bench {
    switch: Switch,
    asked: Vec<Asked>,
}

impl ControlPort for Bench {
    ghost use Rattle.std.specs.Prelude.{[], ◌∷◌, Some};

    ghost commands = { λ port. port.asked.items };

    ghost switch_count = { λ port. 1 };

    ghost shown = { λ port. Some (port.switch ∷ []) };

    ghost unanswered = { λ port switch bytes e. Unit {0} };

    ghost due = { λ port switch bytes given after. Unit {0} };

    fn switches(&self) -> usize {
        1
    }

    fn command(&mut self, switch: usize, bytes: &ControlBytes) -> Result<ControlBytes, EventFault> {
        if switch > 0 {
            return Err(EventFault::NoNode);
        }
        if self.asked.reserve(1).is_err() {
            return Err(EventFault::NoMemory);
        }
        let reply = self.switch.control(bytes.as_slice());
        self.asked.push_reserved(Asked {
            switch,
            command: ControlBytes::new(bytes.as_slice()),
            reply: ControlBytes::new(reply.as_slice()),
        });
        Ok(reply)
    }
}

/// A port that answers every command with no bytes.
#[derive(Drop)]
struct Mute {
    asked: Vec<Asked>,
}

impl ControlPort for Mute {
    ghost use Rattle.std.specs.Prelude.{None};

    ghost commands = { λ port. port.asked.items };

    ghost switch_count = { λ port. 1 };

    ghost shown = { λ port. None };

    ghost unanswered = { λ port switch bytes e. Unit {0} };

    ghost due = { λ port switch bytes given after. Unit {0} };

    fn switches(&self) -> usize {
        1
    }

    fn command(&mut self, switch: usize, bytes: &ControlBytes) -> Result<ControlBytes, EventFault> {
        if self.asked.reserve(1).is_err() {
            return Err(EventFault::NoMemory);
        }
        self.asked.push_reserved(Asked {
            switch,
            command: ControlBytes::new(bytes.as_slice()),
            reply: ControlBytes::new(&[]),
        });
        Ok(ControlBytes::new(&[]))
    }
}

/// A switch is loaded and compared with its image; a register that was written differs, until the
/// image is loaded again.
#[test]
fn loaded_damaged_and_mended(rt: HostRuntime) -> Result<(), Fail> {
    let own = described_image(rt.alloc(), PLAN)?;
    let pair = described_image(rt.alloc(), PAIR)?;
    on_a_bench(&rt, rt.alloc(), &own, &pair)
}

fn on_a_bench(rt: &impl Abort, alloc: Global, own: &Image, pair: &Image) -> Result<(), Fail> {
    let mut bench = new_bench(alloc)?;
    load_a_switch(rt, &mut bench, own, pair);
    damage(rt, &mut bench, own);
    mend(rt, &mut bench, own);
    put_away(bench);
    Ok(())
}

fn new_bench(alloc: Global) -> Result<Bench, Fail> {
    Ok(Bench {
        switch: Switch::new(alloc, 16)?,
        asked: Vec::new(alloc),
    })
}

fn put_away(bench: Bench) {
    let Bench { switch, asked: _ } = bench;
    switch.retire();
}

fn load_a_switch(rt: &impl Abort, bench: &mut Bench, own: &Image, pair: &Image) {
    assert!(rt; load_image(bench, pair) == Err(LoadFault::NoSwitch));
    assert!(rt; load_image(bench, own) == Ok(()));
    // A reset, a limit and a select for each of two rows of two inputs, and the start.
    assert!(rt; bench.asked.len() == 10);
    assert!(rt; has_rows(first_table(bench)));
    assert!(rt; verify_image(bench, own) == Ok(()));
}

fn damage(rt: &impl Abort, bench: &mut Bench, own: &Image) {
    assert!(rt; write(bench, 0, 0x0140, 5) == Ok(()));
    assert!(rt; verify_image(bench, own) == Err(LoadFault::Differs(0, 0x0140, 5)));
    assert!(rt; write(bench, 0, 0xffff, 0) == Err(LoadFault::Refused(0, 0xffff, 3)));
}

fn mend(rt: &impl Abort, bench: &mut Bench, own: &Image) {
    assert!(rt; first_link(bench, 1) == Err(LoadFault::NoSwitch));
    assert!(rt; last_link(bench, 0) == Ok(IDLE));
    assert!(rt; load_image(bench, own) == Ok(()));
    assert!(rt; verify_image(bench, own) == Ok(()));
}

/// The table of the first input, read with nothing promised.
fn first_table(bench: &mut Bench) -> Result<Table, LoadFault> {
    read_table(bench, 0, 0)
}

/// Whether a table was read that begins at 0 and has 2 as its second limit.
fn has_rows(table: Result<Table, LoadFault>) -> bool {
    match table {
        Ok(table) => table.base == 0 && table.rows[1].limit == 2,
        Err(_) => false,
    }
}

/// What the first link of a switch tells, and what the last one does, with nothing promised.
fn first_link<P: ControlPort>(port: &mut P, switch: usize) -> Result<LinkNumbers, LoadFault> {
    read_link(port, switch, 0)
}

fn last_link(bench: &mut Bench, switch: usize) -> Result<LinkNumbers, LoadFault> {
    read_link(bench, switch, 31)
}

/// A reply of no bytes answers no command.
#[test]
fn no_reply(rt: HostRuntime) -> Result<(), Fail> {
    let image = described_image(rt.alloc(), PLAN)?;
    assert!(rt; fails_without_replies(rt.alloc(), &image));
    Ok(())
}

fn fails_without_replies(alloc: Global, image: &Image) -> bool {
    let mut mute = Mute {
        asked: Vec::new(alloc),
    };
    load_image(&mut mute, image) == Err(LoadFault::BadReply(0))
}

/// A network is loaded, begins a run, and carries a packet; a damaged row is found.
#[test]
fn loaded_network(rt: HostRuntime) -> Result<(), Fail> {
    let image = described_image(rt.alloc(), PLAN)?;
    let mut net = new_network(rt.alloc(), PLAN)?;
    load_a_network(&rt, &mut net, &image);
    begin_a_run(&rt, &mut net);
    let result = carry(&rt, rt.alloc(), &mut net);
    retire(net);
    result
}

fn load_a_network(rt: &impl Abort, net: &mut Net, image: &Image) {
    assert!(rt; load_image(net, image) == Ok(()));
    assert!(rt; verify_image(net, image) == Ok(()));
    assert!(rt; write(net, 0, 0x0140, 5) == Ok(()));
    assert!(rt; verify_image(net, image) == Err(LoadFault::Differs(0, 0x0140, 5)));
    assert!(rt; load_image(net, image) == Ok(()));
}

/// A further switch isn't there, and a run begins.
fn begin_a_run(rt: &impl Abort, net: &mut Net) {
    assert!(rt; command(net, 1, &ControlBytes::new(&[0x03])) == Err(EventFault::NoNode));
    assert!(rt; begin(net));
}

/// A packet of `a` for `b` goes through the switch that was loaded.
fn carry(rt: &impl Abort, alloc: Global, net: &mut Net) -> Result<(), Fail> {
    send(alloc, net, 0, "01 eop")?;
    assert!(rt; !begin(net));
    assert!(rt; entry_count(net, 1) == 1);
    rounds(net, 4)?;
    assert!(rt; has_arrived(net, 1, &[Token::Byte(1), Token::Eop]));
    Ok(())
}

/// A network of one switch is asked for two, for a link of the second, and for a register that it hasn't.
#[test]
fn refused_by_a_network(rt: HostRuntime) -> Result<(), Fail> {
    let pair = described_image(rt.alloc(), PAIR)?;
    let mut net = placed_network(rt.alloc(), PLAN)?;
    let result = refuses_a_switch(&mut net, &pair) && refuses_a_register(&mut net);
    retire(net);
    assert!(rt; result);
    Ok(())
}

fn refuses_a_switch(net: &mut Net, pair: &Image) -> bool {
    load_image(net, pair) == Err(LoadFault::NoSwitch)
        && first_link(net, 1) == Err(LoadFault::NoSwitch)
}

fn refuses_a_register(net: &mut Net) -> bool {
    write(net, 0, 0xffff, 0) == Err(LoadFault::Refused(0, 0xffff, 3))
}
