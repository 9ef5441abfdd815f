//! Events and rounds of a network of tagged tokens, of which a meter is told.
ghost use Rattle.{c104_net.specs.MeteredRecords.{at_meter, record_metered}, c104_run.specs.{EventRuns.Answers, NetRecords.NetRecord}};
ghost use Rattle.c104_run.specs.{FairRounds.{fair_round, fairly, in_turn}, HandedWords.round_with, RoundParts.PartEnds};

use c104_event::{Event, EventFault};
use c104_node::TaggedToken;
use c104_run::{Meter, TracedNet, Turns, Words};
use c104_switch::Reply;

/// Does events and rounds, and tells a meter of each token that crosses a wire and of each that arrives. The record of the
/// network determines the tokens.
pub trait MeteredNet {
    /// The network as a record.
    ghost record_of: { Self → NetRecord };

    /// Does an event as `apply` does.
    fn apply_told<M: Meter<TaggedToken>>(
        &mut self,
        event: &Event,
        meter: &mut M,
    ) -> Result<Reply, EventFault>
        ensures { Answers (record_metered M.sees) (at_meter (record_of self.old) meter.old) event.now
            result (at_meter (record_of self.new) meter.new) };

    /// Does one round whose inputs are handed these words, and tells whether any event of it was done. Where none was, no
    /// further round would change anything, whatever its words.
    fn round_told<M: Meter<TaggedToken>>(
        &mut self,
        words: Words,
        meter: &mut M,
    ) -> Result<bool, EventFault>
        ensures { PartEnds (record_metered M.sees) (at_meter (record_of self.old) meter.old)
            (round_with words (record_of self.old).network.plan) result (at_meter (record_of self.new) meter.new) };

    /// Does one fair round by these turns, and tells whether any event of it was done. Where none was, the turns are as they
    /// were, and no further round would change anything.
    fn fair_round_told<M: Meter<TaggedToken>>(
        &mut self,
        words: Words,
        turns: &mut Turns,
        meter: &mut M,
    ) -> Result<bool, EventFault>
        ensures { PartEnds (fairly (record_metered M.sees)) (in_turn (at_meter (record_of self.old) meter.old) turns.old)
            (fair_round words turns.old (record_of self.old).network.plan)
            result (in_turn (at_meter (record_of self.new) meter.new) turns.new) };
}

impl MeteredNet for TracedNet {
    ghost record_of = { λ (r : NetRecord). r };

    fn apply_told<M: Meter<TaggedToken>>(
        &mut self,
        event: &Event,
        meter: &mut M,
    ) -> Result<Reply, EventFault>
        ensures { Answers (record_metered M.sees) (at_meter self.old meter.old) event.now
            result (at_meter self.new meter.new) }
    {
        // The proof reads here what every plan and every such network keeps.
        let plan = self.told_plan();
        let _switches = plan.switches();
        self.apply_metered(event, meter)
    }

    fn round_told<M: Meter<TaggedToken>>(
        &mut self,
        words: Words,
        meter: &mut M,
    ) -> Result<bool, EventFault>
        ensures { PartEnds (record_metered M.sees) (at_meter self.old meter.old)
            (round_with words self.old.network.plan) result (at_meter self.new meter.new) }
    {
        // The proof reads here what every plan and every such network keeps.
        let plan = self.told_plan();
        let _switches = plan.switches();
        self.round_metered(words, meter)
    }

    fn fair_round_told<M: Meter<TaggedToken>>(
        &mut self,
        words: Words,
        turns: &mut Turns,
        meter: &mut M,
    ) -> Result<bool, EventFault>
        ensures { PartEnds (fairly (record_metered M.sees)) (in_turn (at_meter self.old meter.old) turns.old)
            (fair_round words turns.old self.old.network.plan) result (in_turn (at_meter self.new meter.new) turns.new) }
    {
        // The proof reads here what every plan and every such network keeps.
        let plan = self.told_plan();
        let _switches = plan.switches();
        self.fair_round_metered(words, turns, meter)
    }
}
