//! The loader and the debugger, over a network and over a seat of a fabric. Of the commands those that were answered
//! before a refusal stand.
ghost use Rattle.std.specs.Prelude.{◌≡◌};
ghost use Rattle.c104_workers.specs.Fabrics.{handed_of};

use crate::calls::{PLAN, counts};
use crate::fabrics::{fabric_of, is_run, ready_of};
use crate::ground::{Ground, Suite, growths_on, is_right_on};
use crate::growths::{Growing, Refusal, Sharing, is_right, is_told};
use crate::outcomes::Outcome;
use c104_control::ControlBytes;
use c104_net::Net;
use c104_plan::Image;
use c104_tools::{ControlPort, load, read_link, read_table, verify, write_register};
use c104_workers::{Fabric, FabricPort, Gathered, Naming, Ready, Seat};
use std::alloc::Global;
use std::marker::Brand;
use std::sync::Wait;
use std::thread::Threads;

/// What is asked by commands.
#[derive(Clone, Copy)]
enum Tool {
    Load,
    Verify,
    Write,
    ReadLink,
    ReadTable,
    Identify,
}

/// Each tool, by its name, and a command by itself.
const TOOLS: [(&str, Tool); 6] = [
    ("load, Fabric::load", Tool::Load),
    ("verify, Fabric::verify", Tool::Verify),
    ("write_register", Tool::Write),
    ("read_link", Tool::ReadLink),
    ("read_table", Tool::ReadTable),
    ("ControlPort::command", Tool::Identify),
];

impl Tool {
    /// What a call over a network comes to.
    fn over_net(self, net: &mut Net, image: &Image) -> Outcome {
        match self {
            Tool::Load => Outcome::of(load(net, image)),
            Tool::Verify => Outcome::of(verify(net, image)),
            Tool::Write => Outcome::of(write_register(net, 0, 0x0145, 9)),
            Tool::ReadLink => Outcome::of(read_link(net, 0, 1)),
            Tool::ReadTable => Outcome::of(read_table(net, 0, 1)),
            Tool::Identify => Outcome::of(net.command(0, &ControlBytes::new(&[0x03]))),
        }
    }

    /// What a call over a seat of a fabric comes to.
    fn over_seat<N: Naming, R: Wait>(
        self,
        rt: &R,
        fabric: &Fabric<N>,
        seat: &mut Seat,
        image: &Image,
    ) -> Outcome
        requires { seat.old.0.word_id ≡ fabric.now.word_id }
        ensures { seat.new.0.word_id ≡ fabric.now.word_id }
    {
        match self {
            Tool::Load => loaded(rt, fabric, seat, image),
            Tool::Verify => verified(rt, fabric, seat, image),
            Tool::Write => written(rt, fabric, seat),
            Tool::ReadLink => link_read(rt, fabric, seat),
            Tool::ReadTable => table_read(rt, fabric, seat),
            Tool::Identify => identified(rt, fabric, seat),
        }
    }
}

/// What it comes to that an image is loaded through a seat.
fn loaded<N: Naming, R: Wait>(rt: &R, fabric: &Fabric<N>, seat: &mut Seat, image: &Image) -> Outcome
    requires { seat.old.0.word_id ≡ fabric.now.word_id }
    ensures { seat.new.0.word_id ≡ fabric.now.word_id }
{
    Outcome::of(fabric.load(rt, seat, image))
}

/// The same of an image that is compared.
fn verified<N: Naming, R: Wait>(
    rt: &R,
    fabric: &Fabric<N>,
    seat: &mut Seat,
    image: &Image,
) -> Outcome
    requires { seat.old.0.word_id ≡ fabric.now.word_id }
    ensures { seat.new.0.word_id ≡ fabric.now.word_id }
{
    Outcome::of(fabric.verify(rt, seat, image))
}

/// The same of a register that is written.
fn written<N: Naming, R: Wait>(rt: &R, fabric: &Fabric<N>, seat: &mut Seat) -> Outcome
    requires { seat.old.0.word_id ≡ fabric.now.word_id }
    ensures { seat.new.0.word_id ≡ fabric.now.word_id }
{
    let mut port = FabricPort { rt, fabric, seat };
    Outcome::of(write_register(&mut port, 0, 0x0145, 9))
}

/// The same of a link's numbers.
fn link_read<N: Naming, R: Wait>(rt: &R, fabric: &Fabric<N>, seat: &mut Seat) -> Outcome
    requires { seat.old.0.word_id ≡ fabric.now.word_id }
    ensures { seat.new.0.word_id ≡ fabric.now.word_id }
{
    let mut port = FabricPort { rt, fabric, seat };
    Outcome::of(read_link(&mut port, 0, 1))
}

/// The same of a table.
fn table_read<N: Naming, R: Wait>(rt: &R, fabric: &Fabric<N>, seat: &mut Seat) -> Outcome
    requires { seat.old.0.word_id ≡ fabric.now.word_id }
    ensures { seat.new.0.word_id ≡ fabric.now.word_id }
{
    let mut port = FabricPort { rt, fabric, seat };
    Outcome::of(read_table(&mut port, 0, 1))
}

/// The same of a command.
fn identified<N: Naming, R: Wait>(rt: &R, fabric: &Fabric<N>, seat: &mut Seat) -> Outcome
    requires { seat.old.0.word_id ≡ fabric.now.word_id }
    ensures { seat.new.0.word_id ≡ fabric.now.word_id }
{
    let mut port = FabricPort { rt, fabric, seat };
    Outcome::of(port.command(0, &ControlBytes::new(&[0x03])))
}

/// A tool is used on a network that is placed with the image. After a refusal each command that was answered is an entry
/// of the switch, and the call is made once more. It fails where a command is answered and not kept, or kept without an
/// answer.
#[derive(Drop)]
struct Using<'a>(Ground<'a>, Tool);

impl Growing for Using<'_> {
    fn call(&self, alloc: Global, refusal: Refusal) -> Outcome {
        let Some(mut net) = self.0.net(alloc) else {
            return Outcome::Wrong;
        };
        refusal.begin(alloc);
        let found = self.1.over_net(&mut net, self.0.image);
        refusal.end(alloc);
        let (events, entries) = counts(&net);
        let is_kept = events == entries as u64 && is_net_mended(&mut net, self.1, self.0.image);
        net.retire();
        if is_kept { found } else { Outcome::Wrong }
    }
}

/// Whether the call succeeds once nothing is refused, and the switch holds the image once that is loaded.
fn is_net_mended(net: &mut Net, tool: Tool, image: &Image) -> bool {
    tool.over_net(net, image) == Outcome::Done
        && Tool::Load.over_net(net, image) == Outcome::Done
        && Tool::Verify.over_net(net, image) == Outcome::Done
}

/// A tool is used through a seat. After a refusal each command that was answered is a call of the seat and an entry of the
/// switch, and the call is made once more: all of it is one run.
#[derive(Drop)]
struct UsingSeat(Tool);

impl Sharing for UsingSeat {
    fn call<R: Threads + Wait + Sync>(
        &self,
        rt: &R,
        alloc: Global,
        ground: Ground<'_>,
        refusal: Refusal,
    ) -> Outcome {
        match ready_of(alloc, ground) {
            Some(ready) => by_seat::<Brand, R>(rt, alloc, refusal, ready, ground.image, self.0),
            None => Outcome::Wrong,
        }
    }
}

fn by_seat<N: Naming, R: Wait>(
    rt: &R,
    alloc: Global,
    refusal: Refusal,
    ready: Ready,
    image: &Image,
    tool: Tool,
) -> Outcome
    requires { (ready.word_id ≡ N.word) × (handed_of ready.net ≡ N.handed) }
{
    let Some((fabric, mut seats)) = fabric_of::<N>(alloc, ready) else {
        return Outcome::Wrong;
    };
    let Some(mut seat) = seats.pop() else {
        fabric.close(seats).retire();
        return Outcome::Wrong;
    };
    let found = used(rt, alloc, refusal, &fabric, &mut seat, image, tool);
    seats.clear();
    seats.push_reserved(seat);
    let gathered = fabric.close(seats);
    let is_kept = is_run(alloc, &gathered) && has_each_command(&gathered);
    gathered.retire();
    if is_kept { found } else { Outcome::Wrong }
}

fn used<N: Naming, R: Wait>(
    rt: &R,
    alloc: Global,
    refusal: Refusal,
    fabric: &Fabric<N>,
    seat: &mut Seat,
    image: &Image,
    tool: Tool,
) -> Outcome
    requires { seat.old.0.word_id ≡ fabric.now.word_id }
    ensures { seat.new.0.word_id ≡ fabric.now.word_id }
{
    refusal.begin(alloc);
    let found = tool.over_seat(rt, fabric, seat, image);
    refusal.end(alloc);
    let is_done = tool.over_seat(rt, fabric, seat, image) == Outcome::Done;
    let is_loaded = Tool::Load.over_seat(rt, fabric, seat, image) == Outcome::Done;
    let is_same = Tool::Verify.over_seat(rt, fabric, seat, image) == Outcome::Done;
    if is_done && is_loaded && is_same {
        found
    } else {
        Outcome::Wrong
    }
}

/// Whether the first seat has as many calls as the switch has entries.
fn has_each_command(gathered: &Gathered) -> bool {
    match (gathered.seats(), gathered.nodes()) {
        ([seat, ..], [switch, ..]) => seat.calls.as_slice().len() == switch.trace().len(),
        _ => false,
    }
}

/// Each tool over a network.
#[derive(Drop)]
struct NetTools;

impl Suite for NetTools {
    fn is_right(&self, rt: &HostRuntime, ground: Ground<'_>) -> bool {
        for (name, tool) in TOOLS {
            if !is_right(rt, name, &Using(ground, tool)) {
                return false;
            }
        }
        true
    }
}

#[test]
fn tools_of_a_network(rt: HostRuntime) {
    assert!(rt; is_right_on(&rt, PLAN, &NetTools));
}

#[test]
fn tools_of_a_fabric(rt: HostRuntime) {
    for (name, tool) in TOOLS {
        let growths = growths_on(&rt, rt.alloc(), PLAN, &UsingSeat(tool));
        assert!(rt; is_told(&rt, name, growths));
    }
}
