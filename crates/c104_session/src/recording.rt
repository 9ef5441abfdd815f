//! A driver that keeps for tables what it does.
ghost use Rattle.std.specs.Prelude.{Err, OnErr, OnOk, ℕ, ◌&&◌, ◌≡◌, ◌⊎◌};
ghost use Rattle.{c104_rows.specs.Counts.{Counts as TheCounts, counts_sent}, c104_run.specs.NetRecords.is_done};
ghost use Rattle.c104_run.specs.RecordedRuns.{record_apply};
ghost use Rattle.c104_session.specs.{Driven.DoesEvent, Recorded.{before_command, before_event, cut_if, event_record, noted_event}};
ghost use Rattle.c104_session.specs.{Recorded.{record_cut, record_sent, record_told, sent_if}, Resets.is_reset};
ghost use Rattle.c104_event.specs.declared.faults.EventFault.TheVariants as fault;

use crate::driver::Driver;
use crate::keepers::{Keeper, do_told, keep_fair_rounds, keep_further_round, keep_rounds};
use crate::resets::is_reset;
use c104_event::{Event, EventFault};
use c104_net::{TracedNet, Turns, Watch, Words};
use c104_rows::{Counts, RunRecord, Timeline};
use c104_switch::Reply;
use c104_token::NoMemory;

impl Keeper for RunRecord {
    ghost use Rattle.c104_session.specs.Recorded.{record_keeps};

    ghost keeps = { record_keeps };

    fn round(&self) -> u32 {
        self.round()
    }

    fn begin(&mut self, net: &TracedNet) -> Result<(), NoMemory> {
        self.begin_round(net)
    }

    fn end(&mut self, done: bool) {
        self.end_round(done);
    }

    fn pass(&mut self, times: u32) {
        self.pass_rounds(times);
    }
}

impl Driver for RunRecord {
    ghost use Rattle.c104_session.specs.Recorded.{record_kept};

    ghost drives = { record_kept };

    fn event(&mut self, net: &mut TracedNet, event: &Event) -> Result<Reply, EventFault> {
        prepare(&mut self.timeline, event)?;
        do_noted(self, net, event)
    }

    fn rounds<W: Watch>(
        &mut self,
        net: &mut TracedNet,
        words: Words,
        count: u32,
        watch: &mut W,
    ) -> Result<(), EventFault> {
        keep_rounds(self, net, words, count, watch)
    }

    #[tactic(auto, using(crate::proofs::FurtherRounds::recorded_further))]
    fn further_round(&mut self, net: &mut TracedNet) -> Result<bool, EventFault> {
        keep_further_round(self, net)
    }

    fn fair_rounds<W: Watch>(
        &mut self,
        net: &mut TracedNet,
        turns: &mut Turns,
        words: Words,
        count: u32,
        watch: &mut W,
    ) -> Result<(), EventFault> {
        keep_fair_rounds(self, net, turns, words, count, watch)
    }
}

/// What is due before an event: what crossed at its port becomes part of the timeline, and where it resets a switch the tokens
/// in that are thrown away. The only error is out of memory.
fn prepare(timeline: &mut Timeline, event: &Event) -> Result<(), NoMemory>
    ensures { OnOk result (timeline.new ≡ before_event timeline.old event.now) }
{
    match event {
        Event::Cross(port) => timeline.settle(*port),
        Event::Control { switch, bytes } => cut_before(timeline, *switch, bytes.as_slice()),
        _ => Ok(()),
    }
}

/// The same before a control command.
fn cut_before(timeline: &mut Timeline, switch: usize, bytes: &[u8]) -> Result<(), NoMemory>
    ensures { OnOk result (timeline.new ≡ before_command timeline.old switch bytes.now) }
{
    if is_reset(bytes) {
        timeline.cut(switch)?;
    }
    Ok(())
}

/// Does an event of which this is kept, and whether it was done.
#[tactic(auto, using(crate::proofs::RecordedEvents::noted_record))]
fn do_noted(kept: &mut RunRecord, net: &mut TracedNet, event: &Event) -> Result<Reply, EventFault>
    ensures due { DoesEvent net.old event.now result net.new }
    ensures unchanged { OnErr result (net.new ≡ net.old) }
    ensures noted { (kept.new ≡ noted_event kept.old net.old event.now) ⊎ (result ≡ Err fault.NoMemory) }
{
    let answer = do_recorded(kept, net, event);
    kept.end_round(was_done(&answer));
    answer
}

/// Does an event of which this is kept, but for whether it was done.
fn do_recorded(
    kept: &mut RunRecord,
    net: &mut TracedNet,
    event: &Event,
) -> Result<Reply, EventFault>
    ensures due { DoesEvent net.old event.now result net.new }
    ensures unchanged { OnErr result (net.new ≡ net.old) }
    ensures recorded { (kept.new ≡ event_record kept.old net.old event.now) ⊎ (result ≡ Err fault.NoMemory) }
{
    match event {
        Event::Send { terminal, packet } => {
            let bytes = packet.bytes.as_slice().len() as u64;
            send_recorded(kept, net, event, *terminal, bytes)
        }
        Event::Control { switch, bytes } => {
            command_recorded(kept, net, event, *switch, bytes.as_slice())
        }
        _ => do_told(kept, net, event),
    }
}

/// Gives a switch this command, of which the record is told. A Reset throws away what the switch holds.
#[tactic(auto, using(crate::proofs::RecordedEvents::reset_record))]
fn command_recorded(
    kept: &mut RunRecord,
    net: &mut TracedNet,
    event: &Event,
    switch: usize,
    bytes: &[u8],
) -> Result<Reply, EventFault>
    ensures due { DoesEvent net.old event.now result net.new }
    ensures unchanged { OnErr result (net.new ≡ net.old) }
    ensures recorded { (kept.new ≡ record_cut (is_done (record_apply net.old event.now).0 && is_reset bytes.now)
        (record_told kept.old net.old event.now) switch) ⊎ (result ≡ Err fault.NoMemory) }
{
    let answer = do_told(kept, net, event);
    let done = was_done(&answer);
    let resets = is_reset(bytes);
    cut_counts(&mut kept.counts, switch, done && resets);
    answer
}

/// The packets that held the links of a switch hold them no more, where it was reset.
fn cut_counts(counts: &mut Counts, switch: usize, reset: bool)
    ensures { counts.new ≡ cut_if reset counts.old switch }
{
    if reset {
        counts.cut(switch);
    }
}

/// Asks a terminal to send a packet of this many bytes. It is counted before, when there may be no memory for that, and
/// taken back where it isn't done.
#[tactic(auto, using(crate::proofs::ToldEvents::asked_due, crate::proofs::Leavings::event_kept, crate::proofs::RecordedEvents::sent_record))]
fn send_recorded(
    kept: &mut RunRecord,
    net: &mut TracedNet,
    event: &Event,
    terminal: usize,
    bytes: u64,
) -> Result<Reply, EventFault>
    ensures due { DoesEvent net.old event.now result net.new }
    ensures unchanged { OnErr result (net.new ≡ net.old) }
    ensures recorded { (kept.new ≡ record_sent (is_done (record_apply net.old event.now).0) kept.old terminal bytes)
        ⊎ (result ≡ Err fault.NoMemory) }
{
    kept.counts.send(terminal, bytes)?;
    let answer = net.apply(event);
    keep_sent(&mut kept.counts, terminal, was_done(&answer));
    answer
}

/// What was counted of a packet stays where it was sent, and else is taken back.
#[tactic(auto, using(crate::proofs::RecordedEvents::sent_kept))]
fn keep_sent(counts: &mut Counts, terminal: usize, done: bool)
    ensures { (before : TheCounts) (bytes : ℕ) → counts.old ≡ counts_sent before terminal bytes
        → counts.new ≡ sent_if done before terminal bytes }
{
    if !done {
        counts.take_back(terminal);
    }
}

/// Whether an event that was answered so was done.
fn was_done(answer: &Result<Reply, EventFault>) -> bool
    ensures { result ≡ is_done answer.now }
{
    match answer {
        Ok(Reply::NotReady) => false,
        Ok(_) => true,
        Err(_) => false,
    }
}
