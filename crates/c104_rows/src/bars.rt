//! What crossed the wire at a port, packet by packet.
ghost use Rattle.std.specs.{List.flat_map, Prelude.{IfOk, OnOk, ◌++◌, ◌≡◌}};
ghost use Rattle.c104_rows.specs.Bars.{bar_of, bars_at, bars_by};

use crate::lanes::{Lane, Stretch};
use crate::periods::Period;
use crate::ports::lane_at;
use crate::timelines::Timeline;
use c104_node::Origin;
use c104_plan::Port;
use c104_token::NoMemory;
use std::alloc::Global;

/// Rounds of a packet on a wire.
#[derive(Clone, Copy)]
pub struct Bar {
    /// The packet's number among those that crossed here, from 0.
    pub number: usize,
    /// The packet, if it is known.
    pub packet: Option<Origin>,
    /// The rounds in which it holds the wire and nothing crosses, if there are some.
    pub holds: Option<Period>,
    /// The rounds behind them, in each of which one of its tokens crosses, if there are some.
    pub moves: Option<Period>,
}

impl Bar {
    /// A stretch of a lane, up to the last round that is shown.
    fn of(last: u32, lane: &Lane, stretch: Stretch) -> Self
        ensures { result ≡ bar_of last lane.now stretch }
    {
        Bar {
            number: stretch.packet,
            packet: lane.packet_of(stretch),
            holds: stretch.idle(last),
            moves: stretch.moved(last),
        }
    }
}

/// What crossed the wire at a port from there, up to the last round that is shown, and what held it. The only error is out of memory.
pub fn bars_at(
    alloc: Global,
    timeline: &Timeline,
    last: u32,
    port: Port,
) -> Result<Vec<Bar>, NoMemory>
    ensures { IfOk result (λ bars. bars.items ≡ bars_at timeline.now last port) }
{
    let mut bars = Vec::new(alloc);
    if let Some(lane) = lane_at(timeline, port) {
        add_lane(last, lane, &mut bars)?;
    }
    Ok(bars)
}

/// The stretches of a lane join others. The only error is out of memory.
fn add_lane(last: u32, lane: &Lane, bars: &mut Vec<Bar>) -> Result<(), NoMemory>
    ensures { OnOk result (bars.new.items ≡ bars.old.items ++ flat_map (bars_by last lane.now) lane.now.stretches) }
{
    for stretch in lane.stretches() {
        add_stretch(last, lane, *stretch, bars)?;
    }
    Ok(())
}

/// A stretch joins others, if any of its rounds is shown. The only error is out of memory.
fn add_stretch(
    last: u32,
    lane: &Lane,
    stretch: Stretch,
    bars: &mut Vec<Bar>,
) -> Result<(), NoMemory>
    ensures { OnOk result (bars.new.items ≡ bars.old.items ++ bars_by last lane.now stretch) }
{
    if stretch.is_in(last) {
        bars.push(Bar::of(last, lane, stretch))?;
    }
    Ok(())
}
