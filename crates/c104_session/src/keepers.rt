//! Rounds of which something is kept.
ghost use Rattle.std.specs.Prelude.{Err, OnErr, length, ◌≡◌, ◌⊎◌};
ghost use Rattle.{c104_net.specs.MeteredRecords.{at_meter, record_metered}, c104_run.specs.{FairRounds.in_turn, HandedWords.words_behind}};
ghost use Rattle.c104_session.specs.{Driven.{DoesEvent, DoesFairly, DoesRounds}, Leavings.{LeavesFairly, LeavesRounds}};
ghost use Rattle.c104_session.specs.{FurtherRounds.{DoesFurther, KeepsFurther}, Keepers.{KeepsFairRound, KeepsRound, fair_rounds_kept}};
ghost use Rattle.c104_session.specs.Keepers.{is_later, rounds_kept};
ghost use Rattle.c104_event.specs.declared.faults.EventFault.TheVariants as fault;

use c104_event::{Event, EventFault};
use c104_net::{Meter, MeteredNet, TaggedToken, TracedNet, Turns, Watch, Words};
use c104_rows::stands_still;
use c104_switch::Reply;
use c104_token::NoMemory;

/// Who keeps something of the rounds of a run, beside what a meter is told.
pub(crate) trait Keeper: Meter<TaggedToken> {
    ghost use Rattle.std.specs.Prelude.{◌≡◌, OnOk};
    ghost use Rattle.c104_session.specs.Keepers.{Keeping};

    /// What it keeps.
    ghost keeps: { Keeping Self };

    /// The number of the round that began last.
    fn round(&self) -> u32;

    /// A round begins on a network. The only error is out of memory.
    fn begin(&mut self, net: &TracedNet) -> Result<(), NoMemory>
        ensures { OnOk result (self.new ≡ keeps.begun net.now self.old) };

    /// The round ends, in which something was done or not.
    fn end(&mut self, done: bool)
        ensures { self.new ≡ keeps.ended self.old done };

    /// As many rounds pass in which nothing is done.
    fn pass(&mut self, times: u32)
        ensures { self.new ≡ keeps.passed self.old times };
}

/// Does an event, of which this is told.
pub(crate) fn do_told<K: Keeper>(
    keeper: &mut K,
    net: &mut TracedNet,
    event: &Event,
) -> Result<Reply, EventFault>
    ensures due { DoesEvent net.old event.now result net.new }
    ensures kept { OnErr result (net.new ≡ net.old) }
    ensures told { (keeper.new ≡ (record_metered K.sees (at_meter net.old keeper.old) event.now).1.meter)
        ⊎ (result ≡ Err fault.NoMemory) }
{
    net.apply_told(event, keeper)
}

/// Does rounds whose inputs are handed words, as `TracedNet::rounds_watched` does, and has this kept of them. Out of memory the
/// first of their events are done.
pub(crate) fn keep_rounds<K: Keeper, W: Watch>(
    keeper: &mut K,
    net: &mut TracedNet,
    words: Words,
    count: u32,
    watch: &mut W,
) -> Result<(), EventFault>
    ensures due { DoesRounds words net.old count result net.new }
    ensures left { LeavesRounds words net.old count net.new }
    ensures kept { (keeper.new ≡ rounds_kept K.sees K.keeps words count (at_meter net.old keeper.old))
        ⊎ (result ≡ Err fault.NoMemory) }
{
    let mut handed = words;
    for round in 0..count {
        let done = keep_round(keeper, net, handed)?;
        if !done {
            // Nor would any further round change anything, whatever its words.
            keeper.pass(count - (round + 1));
            return Ok(());
        }
        watch.rounds_done(round + 1, count);
        handed = words_behind(handed, net);
    }
    Ok(())
}

/// Does a round whose inputs are handed word 0, but not where the network stands still, tells whether it did one, and has this
/// kept of it. Out of memory the first of its events are done.
#[tactic(auto, using(crate::proofs::FurtherRounds::kept_does, crate::proofs::FurtherRounds::kept_further))]
pub(crate) fn keep_further_round<K: Keeper>(
    keeper: &mut K,
    net: &mut TracedNet,
) -> Result<bool, EventFault>
    ensures due { DoesFurther net.old result net.new }
    ensures kept { KeepsFurther K.sees K.keeps net.old keeper.old result net.new keeper.new }
{
    if stands_still(net) {
        return Ok(false);
    }
    keep_round(keeper, net, Words::Zero)
}

/// Does fair rounds whose inputs are handed words, from these turns on, as `TracedNet::fair_rounds` does, and has this kept of
/// them. Out of memory the first of their events are done.
pub(crate) fn keep_fair_rounds<K: Keeper, W: Watch>(
    keeper: &mut K,
    net: &mut TracedNet,
    turns: &mut Turns,
    words: Words,
    count: u32,
    watch: &mut W,
) -> Result<(), EventFault>
    ensures due { DoesFairly words net.old turns.old count result net.new turns.new }
    ensures left { LeavesFairly words net.old turns.old count net.new turns.new }
    ensures kept { (keeper.new ≡ fair_rounds_kept K.sees K.keeps words count (in_turn (at_meter net.old keeper.old) turns.old))
        ⊎ (result ≡ Err fault.NoMemory) }
{
    let mut handed = words;
    for round in 0..count {
        let done = keep_fair_round(keeper, net, turns, handed)?;
        if !done {
            // Nor would any further round change anything: its claims go by the same turns.
            keeper.pass(count - (round + 1));
            return Ok(());
        }
        watch.rounds_done(round + 1, count);
        handed = words_behind(handed, net);
    }
    Ok(())
}

/// The words of the round behind one that is handed these.
fn words_behind(words: Words, net: &TracedNet) -> Words
    ensures { result ≡ words_behind words (length net.now.network.plan.switches) }
{
    words.next(net.plan().switches().len())
}

/// Does a round whose inputs are handed words, and tells whether any event of it was done.
fn keep_round<K: Keeper>(
    keeper: &mut K,
    net: &mut TracedNet,
    words: Words,
) -> Result<bool, EventFault>
    ensures { KeepsRound K.sees K.keeps words net.old keeper.old result net.new keeper.new }
{
    keeper.begin(net)?;
    let before = net.done_count();
    net.round_told(words, keeper)?;
    let done = is_later(before, net.done_count());
    keeper.end(done);
    Ok(done)
}

/// Does a fair round whose inputs are handed words, from these turns on, and tells whether any event of it was done.
fn keep_fair_round<K: Keeper>(
    keeper: &mut K,
    net: &mut TracedNet,
    turns: &mut Turns,
    words: Words,
) -> Result<bool, EventFault>
    ensures { KeepsFairRound K.sees K.keeps words net.old turns.old keeper.old result net.new turns.new keeper.new }
{
    keeper.begin(net)?;
    let before = net.done_count();
    net.fair_round_told(words, turns, keeper)?;
    let done = is_later(before, net.done_count());
    keeper.end(done);
    Ok(done)
}

/// Whether any event was done, by how many were before and after. At the largest count, which no network comes near, that
/// can't be told, and counts as done.
fn is_later(before: u64, after: u64) -> bool
    ensures { result ≡ is_later before after }
{
    before < after || u64::MAX <= before
}
