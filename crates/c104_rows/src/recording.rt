//! What is kept of a run for its tables.
ghost use Rattle.std.specs.Prelude.{IfOk, OnOk, ◌≡◌};
ghost use Rattle.c104_rows.specs.Recording.{new_record, record_begun, record_closed, record_ended, record_passed, seen_each};

use crate::counts::Counts;
use crate::finding::ended_by;
use crate::seen::Seen;
use crate::tables::Wanted;
use crate::timelines::Timeline;
use c104_net::TracedNet;
use c104_node::TaggedToken;
use c104_plan::{Plan, Port};
use c104_run::Meter;
use c104_token::NoMemory;
use std::alloc::Global;

/// What is kept of a run, which is told what happens, in order: packets that are sent, tokens that cross a wire or arrive, rounds
/// that begin and end. The time is the number of rounds that have begun, so what happens outside of rounds counts to the round
/// before.
#[derive(Drop)]
pub struct RunRecord {
    /// What is counted of packets, links and rounds.
    pub counts: Counts,
    /// What crossed the wires.
    pub timeline: Timeline,
    /// How the network stood.
    pub seen: Seen,
}

impl RunRecord {
    /// Nothing has happened yet on the network of a plan. The only error is out of memory.
    pub fn new(alloc: Global, plan: &Plan, wanted: Wanted) -> Result<Self, NoMemory>
        ensures { IfOk result (λ kept. kept ≡ new_record plan.now wanted) }
    {
        let counts = Counts::new(alloc, plan, wanted)?;
        let timeline = Timeline::new(alloc, plan, wanted.holds)?;
        Ok(RunRecord {
            counts,
            timeline,
            seen: Seen::new(alloc),
        })
    }

    /// The number of the round that began last.
    pub fn round(&self) -> u32
        ensures { result ≡ self.now.counts.current.round }
    {
        self.counts.round()
    }

    /// A round begins on a network: what is there is seen. The only error is out of memory.
    pub fn begin_round(&mut self, net: &TracedNet) -> Result<(), NoMemory>
        ensures { OnOk result (self.new ≡ record_begun net.now self.old) }
    {
        let (wanted, round) = (self.counts.wanted(), self.counts.round());
        see_if(wanted.each, net, round, &mut self.seen)?;
        self.counts.see_net(net);
        self.counts.begin_round()?;
        self.timeline.begin_round()
    }

    /// The round ends, or an event outside of rounds. Something was done or not.
    pub fn end_round(&mut self, done: bool)
        ensures { self.new ≡ record_ended self.old done }
    {
        self.counts.note_done(done);
        self.timeline.end_round(done);
    }

    /// As many rounds pass in which nothing is done.
    pub fn pass_rounds(&mut self, times: u32)
        ensures { self.new ≡ record_passed self.old times }
    {
        self.counts.pass_rounds(times);
        self.timeline.pass_rounds(times);
    }

    /// The run is at its end, and this is its network. The only error is out of memory.
    pub fn close(&mut self, net: &TracedNet) -> Result<(), NoMemory>
        ensures { OnOk result (self.new ≡ record_closed net.now self.old) }
    {
        let (wanted, round) = (self.counts.wanted(), self.counts.round());
        see_if(wanted.states, net, round, &mut self.seen)?;
        self.counts.end_at(net);
        self.timeline.close_all(net)
    }
}

/// Behind this round a network stands so, which is seen if it is wanted. The only error is out of memory.
fn see_if(wanted: bool, net: &TracedNet, round: u32, seen: &mut Seen) -> Result<(), NoMemory>
    ensures { OnOk result (seen.new ≡ seen_each wanted net.now round seen.old) }
{
    if wanted {
        return seen.see(net, round);
    }
    Ok(())
}

impl Meter<TaggedToken> for RunRecord {
    ghost use Rattle.c104_rows.specs.Recording.{recording};

    ghost sees = { recording };

    fn crossed(&mut self, port: Port, token: TaggedToken) {
        let ended = ended_by(token);
        self.counts.cross(port, ended);
        self.timeline.cross(port, ended);
    }

    fn arrived(&mut self, terminal: usize, token: TaggedToken) {
        self.counts.arrive(terminal, ended_by(token));
    }
}
