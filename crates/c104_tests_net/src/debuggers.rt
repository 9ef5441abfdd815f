//! A debugger with a seat of its own, beside workers that hold the others.
ghost use Rattle.std.specs.{Prelude.{length, ◌≡◌, ◌≤◌}, Thread.{IsSend, IsSync}};
ghost use Rattle.c104_workers.specs.Fabrics.{handed_of};

use crate::networks::{MESH, PLAN, busy_ready, fabric_of, is_run};
use crate::plan_calls::{Maker, described};
use c104_control::ControlBytes;
use c104_plan::Image;
use c104_tools::{ControlPort, read_link, read_table, write_register};
use c104_workers::{Fabric, FabricPort, Gate, Gathered, Naming, Ready, Seat, Words, run_workers};
use std::alloc::Global;
use std::marker::Brand;
use std::sync::Wait;
use std::sync::atomic::{AtomicBool, Ordering};
use std::thread::{Threads, join};

/// The turns of each worker.
const TURNS: u64 = 50;

/// Whether workers have begun and the debugger is done, and whether both did what they were to.
#[derive(Drop)]
struct Meeting {
    begun: AtomicBool,
    asked: AtomicBool,
    worked: AtomicBool,
    told: AtomicBool,
}

impl Meeting {
    fn new() -> Meeting {
        Meeting {
            begun: AtomicBool::new(false),
            asked: AtomicBool::new(false),
            worked: AtomicBool::new(false),
            told: AtomicBool::new(false),
        }
    }

    /// Whether both did what they were to.
    fn is_kept(&self) -> bool {
        self.worked.load(Ordering::SeqCst) && self.told.load(Ordering::SeqCst)
    }
}

/// Waits for a while.
fn await_flag(flag: &AtomicBool) {
    for _ in 0..100_000_000u32 {
        if flag.load(Ordering::SeqCst) {
            return;
        }
    }
}

/// The debugger begins inside a worker's event, and no worker does its last turn before the debugger is done.
#[derive(Drop)]
struct BesideWorkers<'a>(&'a Meeting);

impl Gate for BesideWorkers<'_> {
    fn before(&self, _worker: usize, turn: u64) {
        if turn.saturating_add(1) == TURNS {
            await_flag(&self.0.asked);
        }
    }

    fn inside(&self, _worker: usize, _node: usize) {
        self.0.begun.store(true, Ordering::SeqCst);
    }
}

/// What the debugger asks for.
#[derive(Clone, Copy)]
enum Asked {
    /// A register is poked and read.
    Register,
    /// The image is compared, and the switch 4 is stopped and started.
    Image,
    /// The image is loaded and compared, a register is written, and a link and a table are read.
    Tools,
}

/// What a debugger does through a seat.
fn debug<N: Naming, R: Wait>(
    rt: &R,
    fabric: &Fabric<N>,
    seat: &mut Seat,
    image: &Image,
    asked: Asked,
) -> bool
    requires { seat.old.0.word_id ≡ fabric.now.word_id }
    ensures { seat.new.0.word_id ≡ fabric.now.word_id }
{
    match asked {
        Asked::Register => {
            let poked = told(rt, fabric, seat, 0, &[5, 2, 1, 5, 0, 0, 0], &[0x85]);
            let read = told(rt, fabric, seat, 0, &[4, 2, 1], &[0x84, 5, 0, 0, 0]);
            poked && read
        }
        Asked::Image => {
            let is_same = is_verified(rt, fabric, seat, image);
            let is_reset = told(rt, fabric, seat, 4, &[0x02], &[0x82]);
            let is_started = told(rt, fabric, seat, 4, &[0x01], &[0x81]);
            is_same && is_reset && is_started
        }
        Asked::Tools => {
            let is_loaded = is_loaded(rt, fabric, seat, image);
            let is_same = is_verified(rt, fabric, seat, image);
            let is_written = is_written(rt, fabric, seat);
            let is_read = is_link_read(rt, fabric, seat) && is_table_read(rt, fabric, seat);
            is_loaded && is_same && is_written && is_read
        }
    }
}

/// Whether a switch replies so to a command.
fn told<N: Naming, R: Wait>(
    rt: &R,
    fabric: &Fabric<N>,
    seat: &mut Seat,
    switch: usize,
    bytes: &[u8],
    due: &[u8],
) -> bool
    requires word { seat.old.0.word_id ≡ fabric.now.word_id }
    requires short { length bytes.now ≤ 8 }
    ensures { seat.new.0.word_id ≡ fabric.now.word_id }
{
    let mut port = FabricPort { rt, fabric, seat };
    match port.command(switch, &ControlBytes::new(bytes)) {
        Ok(reply) => reply.as_slice() == due,
        Err(_) => false,
    }
}

/// Whether an image is loaded through a seat.
fn is_loaded<N: Naming, R: Wait>(rt: &R, fabric: &Fabric<N>, seat: &mut Seat, image: &Image) -> bool
    requires { seat.old.0.word_id ≡ fabric.now.word_id }
    ensures { seat.new.0.word_id ≡ fabric.now.word_id }
{
    fabric.load(rt, seat, image).is_ok()
}

/// Whether the switches hold an image, by what a seat reads.
fn is_verified<N: Naming, R: Wait>(
    rt: &R,
    fabric: &Fabric<N>,
    seat: &mut Seat,
    image: &Image,
) -> bool
    requires { seat.old.0.word_id ≡ fabric.now.word_id }
    ensures { seat.new.0.word_id ≡ fabric.now.word_id }
{
    fabric.verify(rt, seat, image).is_ok()
}

/// Whether a register is written through a seat: where the rows of a link begin that has no wire.
fn is_written<N: Naming, R: Wait>(rt: &R, fabric: &Fabric<N>, seat: &mut Seat) -> bool
    requires { seat.old.0.word_id ≡ fabric.now.word_id }
    ensures { seat.new.0.word_id ≡ fabric.now.word_id }
{
    let mut port = FabricPort { rt, fabric, seat };
    write_register(&mut port, 1, 0x203f, 9).is_ok()
}

/// Whether the numbers of a link are read through a seat.
fn is_link_read<N: Naming, R: Wait>(rt: &R, fabric: &Fabric<N>, seat: &mut Seat) -> bool
    requires { seat.old.0.word_id ≡ fabric.now.word_id }
    ensures { seat.new.0.word_id ≡ fabric.now.word_id }
{
    let mut port = FabricPort { rt, fabric, seat };
    read_link(&mut port, 0, 4).is_ok()
}

/// Whether a table is read through a seat, with the row of label 0 first.
fn is_table_read<N: Naming, R: Wait>(rt: &R, fabric: &Fabric<N>, seat: &mut Seat) -> bool
    requires { seat.old.0.word_id ≡ fabric.now.word_id }
    ensures { seat.new.0.word_id ≡ fabric.now.word_id }
{
    let mut port = FabricPort { rt, fabric, seat };
    read_table(&mut port, 0, 4).is_ok()
}

/// Two seats are those of workers, and the last that of the debugger. Whether both did all that they were to, and the
/// audit answers a run.
fn is_beside<R: Threads + Wait + Sync>(
    rt: &R,
    alloc: Global,
    text: &[u8],
    image: &Image,
    asked: Asked,
) -> bool {
    let Some(ready) = busy_ready(alloc, text, 3) else {
        return false;
    };
    let Some((is_done, gathered)) = work_and_close::<Brand, R>(rt, alloc, ready, image, asked)
    else {
        return false;
    };
    let is_run = is_run(alloc, &gathered);
    gathered.retire();
    is_done && is_run
}

/// The last seat is the debugger's; then the fabric ends with all three.
fn work_and_close<N: Naming + Send + Sync, R: Threads + Wait + Sync>(
    rt: &R,
    alloc: Global,
    ready: Ready,
    image: &Image,
    asked: Asked,
) -> Option<(bool, Gathered)>
    requires { (ready.word_id ≡ N.word) × (handed_of ready.net ≡ N.handed) }
{
    let (fabric, mut seats) = fabric_of::<N>(alloc, ready)?;
    let Some(third) = seats.pop() else {
        return Some((false, fabric.close(seats)));
    };
    let Some(second) = seats.pop() else {
        return Some((false, fabric.close(seats)));
    };
    let Some(first) = seats.pop() else {
        return Some((false, fabric.close(seats)));
    };
    let meeting = Meeting::new();
    let (workers, third) = by_two(
        rt,
        alloc,
        &fabric,
        Workers { first, second },
        third,
        &meeting,
        image,
        asked,
    );
    Some((meeting.is_kept(), closed(alloc, fabric, workers, third)))
}

/// The fabric ends with the seats of the workers, and with that of the debugger.
fn closed<N: Naming>(alloc: Global, fabric: Fabric<N>, workers: Workers, third: Seat) -> Gathered
    requires first { workers.first.0.word_id ≡ fabric.word_id }
    requires second { workers.second.0.word_id ≡ fabric.word_id }
    requires third { third.0.word_id ≡ fabric.word_id }
{
    let Workers { first, second } = workers;
    let mut seats = Vec::new(alloc);
    let _first = seats.push(first);
    let _second = seats.push(second);
    let _third = seats.push(third);
    fabric.close(seats)
}

/// The seats of two workers.
#[derive(Drop)]
struct Workers {
    first: Seat,
    second: Seat,
}

/// Workers in threads of their own, and the debugger in another.
fn by_two<N: Naming + Send + Sync, R: Threads + Wait + Sync>(
    rt: &R,
    alloc: Global,
    fabric: &Fabric<N>,
    workers: Workers,
    seat: Seat,
    meeting: &Meeting,
    image: &Image,
    asked: Asked,
) -> (Workers, Seat)
    requires first { workers.first.0.word_id ≡ fabric.now.word_id }
    requires second { workers.second.0.word_id ≡ fabric.now.word_id }
    requires word { seat.0.word_id ≡ fabric.now.word_id }
    ensures first { result.0.first.0.word_id ≡ fabric.now.word_id }
    ensures second { result.0.second.0.word_id ≡ fabric.now.word_id }
    ensures word { result.1.0.word_id ≡ fabric.now.word_id }
{
    join(
        rt,
        move || -> Workers
            requires { IsSync R.row × IsSend N.row × IsSync N.row
                × (workers.first.0.word_id ≡ fabric.now.word_id) × (workers.second.0.word_id ≡ fabric.now.word_id) }
            ensures { (result.first.0.word_id ≡ fabric.entry.now.word_id) × (result.second.0.word_id ≡ fabric.entry.now.word_id) }
        { worked(rt, alloc, fabric, workers, meeting) },
        move || -> Seat
            requires { IsSync R.row × (seat.0.word_id ≡ fabric.now.word_id) }
            ensures { result.0.word_id ≡ fabric.entry.now.word_id }
        { debugged(rt, fabric, seat, meeting, image, asked) },
    )
}

/// Workers do their turns.
fn worked<N: Naming + Send + Sync, R: Threads + Wait + Sync>(
    rt: &R,
    alloc: Global,
    fabric: &Fabric<N>,
    workers: Workers,
    meeting: &Meeting,
) -> Workers
    requires first { workers.first.0.word_id ≡ fabric.now.word_id }
    requires second { workers.second.0.word_id ≡ fabric.now.word_id }
    ensures first { result.first.0.word_id ≡ fabric.now.word_id }
    ensures second { result.second.0.word_id ≡ fabric.now.word_id }
{
    let gate = BesideWorkers(meeting);
    let Workers { first, second } = workers;
    let mut seats = [first, second];
    let end = run_workers(alloc, rt, fabric, &mut seats, &gate, Words::Zero, TURNS);
    meeting.worked.store(end.is_ok(), Ordering::SeqCst);
    let [first, second] = seats;
    Workers { first, second }
}

/// The debugger waits for workers, and asks.
fn debugged<N: Naming, R: Wait>(
    rt: &R,
    fabric: &Fabric<N>,
    mut seat: Seat,
    meeting: &Meeting,
    image: &Image,
    asked: Asked,
) -> Seat
    requires { seat.0.word_id ≡ fabric.now.word_id }
    ensures { result.0.word_id ≡ fabric.now.word_id }
{
    await_flag(&meeting.begun);
    let is_told = debug(rt, fabric, &mut seat, image, asked);
    meeting.told.store(is_told, Ordering::SeqCst);
    meeting.asked.store(true, Ordering::SeqCst);
    seat
}

/// The same with the image of a description's labels.
fn is_done_beside<R: Threads + Wait + Sync>(
    rt: &R,
    alloc: Global,
    text: &[u8],
    asked: Asked,
) -> bool {
    match described(alloc, text, Maker::Any) {
        Some(image) => is_beside(rt, alloc, text, &image, asked),
        None => false,
    }
}

/// On the plan of two terminals, what a debugger pokes is read back by it while two workers run. It fails where a fabric
/// answers the value that a register had before, or drops what is poked.
#[test]
fn register_beside_workers(rt: HostRuntime) {
    assert!(rt; is_done_beside(&rt, rt.alloc(), PLAN, Asked::Register));
}

/// On a mesh, a debugger compares all switches with their image while two workers run, and stops and starts one. It fails
/// where the events of workers change a register, and where tokens that nobody sent are among those that they move: the
/// audit finds them.
#[test]
fn image_beside_workers(rt: HostRuntime) {
    assert!(rt; is_done_beside(&rt, rt.alloc(), MESH, Asked::Image));
}

/// Each tool is used through a seat while two workers run. It fails where the loader resets switches and leaves out what it
/// is to poke, and where a command has no call of the seat: the audit finds that.
#[test]
fn tools_beside_workers(rt: HostRuntime) {
    assert!(rt; is_done_beside(&rt, rt.alloc(), MESH, Asked::Tools));
}
