//! Fair rounds: the claims of each switch go by turns.
//!
//! The claims of a switch are walked by positions in its turns, and each that is done is told to them.
ghost use Rattle.std.specs.Prelude.{OnOk, [], length, map, slice_get, ℕ, ◌++◌, ◌<◌, ◌∷◌, ◌≡◌, ◌≢◌};
ghost use Rattle.{c104_node.specs.Places.states, c104_regs.specs.declared.registers.TheConstants.LINKS};
ghost use Rattle.c104_run.specs.{EventRuns.EventsEnd, Meters.metered_apply};
ghost use Rattle.c104_run.specs.{Engines.{DoesFairly, DoesPart, engine_at, engine_network}, FairRounds.{fair_claims, fair_events, fair_round, fairly, in_turn, output_turns, switch_turns, turns_of}};
ghost use Rattle.c104_run.specs.{LinkOrders.IsOrder, LinkedSets.IdleOutside, NotedSwitches.{AreNoted, AreSo, GrantsNone, LeavesOthers}};
ghost use Rattle.c104_run.specs.{HandedWords.all_worded, RoundParts.{output_walk, switch_walk, terminal_walk}};
ghost use Rattle.c104_event.specs.declared.events.Event.TheVariants as event;
ghost use Rattle.c104_node.specs.declared.port_part.PortPart.TheVariants as part;

use super::noted::Noted;
use crate::engine::Engine;
use crate::meter::Meter;
use crate::turns::{Order, Turns};
use crate::watch::Watch;
use crate::words::Words;
use c104_event::EventFault;
use c104_node::{Crossing, Place};
use c104_switch::{LINKS, LinkSet};
use c104_token::TokenKind;

impl<T: TokenKind, P: Place<T>> Engine<T, P> {
    /// Does `times` fair rounds whose inputs are handed words, each by the turns that those before it left, up to the first
    /// fault of an event, and tells of each that changed something.
    pub fn fair_rounds<W: Watch, M: Meter<T>>(
        &mut self,
        times: u32,
        words: Words,
        turns: &mut Turns,
        meter: &mut M,
        watch: &mut W,
    ) -> Result<(), EventFault>
        ensures plan { self.new.plan ≡ self.old.plan }
        ensures ends { EventsEnd (fairly (metered_apply T.kind P.keeps M.sees))
            (in_turn (engine_at P.shown self.old meter.old) turns.old)
            (fair_events (metered_apply T.kind P.keeps M.sees) words self.old.plan times
            (in_turn (engine_at P.shown self.old meter.old) turns.old))
            result (in_turn (engine_at P.shown self.new meter.new) turns.new) }
    {
        let mut noted = Noted::all();
        let mut handed = words;
        for round in 0..times {
            let changed = self.fair_round_by(meter, handed, turns, &mut noted)?;
            if !changed && self.count < u64::MAX {
                // Nor would any further round change anything, as in plain rounds.
                return Ok(());
            }
            handed = handed.next(self.switch_count());
            watch.rounds_done(round + 1, times);
        }
        Ok(())
    }

    /// Does one fair round, and tells whether any event of it was done.
    pub fn fair_round<M: Meter<T>>(
        &mut self,
        words: Words,
        turns: &mut Turns,
        meter: &mut M,
    ) -> Result<bool, EventFault>
        ensures { DoesFairly T.kind P.keeps M.sees P.shown self.old meter.old turns.old (fair_round words turns.old)
            result self.new meter.new turns.new }
    {
        self.fair_round_by(meter, words, turns, &mut Noted::all())
    }

    /// Does one fair round, as `round_by` does a plain one.
    fn fair_round_by<M: Meter<T>>(
        &mut self,
        meter: &mut M,
        words: Words,
        turns: &mut Turns,
        noted: &mut Noted,
    ) -> Result<bool, EventFault>
        requires { AreSo (GrantsNone T.kind self.old.plan) noted.old.granting (states (map P.shown self.old.places))
            0 (length self.old.plan.switches) }
        ensures does { DoesFairly T.kind P.keeps M.sees P.shown self.old meter.old turns.old (fair_round words turns.old)
            result self.new meter.new turns.new }
        ensures grants { OnOk result (AreSo (GrantsNone T.kind self.old.plan) noted.new.granting
            (states (map P.shown self.new.places)) 0 (length self.old.plan.switches)) }
    {
        let front = self.before_claims(meter, words, noted)?;
        let claimed = self.claim_by_turns(meter, turns, noted)?;
        let drained = self.drain_terminals(meter)?;
        self.settle();
        Ok(front | claimed | drained)
    }

    /// What comes before the claims in a round, as `round_by` does it.
    #[inline(always)]
    fn before_claims<M: Meter<T>>(
        &mut self,
        meter: &mut M,
        words: Words,
        noted: &mut Noted,
    ) -> Result<bool, EventFault>
        requires { AreSo (GrantsNone T.kind self.old.plan) noted.old.granting (states (map P.shown self.old.places))
            0 (length self.old.plan.switches) }
        ensures does { DoesPart T.kind P.keeps M.sees P.shown self.old meter.old
            (λ plan. (switch_walk plan part.Credit ++ terminal_walk plan part.Credit)
            ++ (switch_walk plan part.Cross ++ terminal_walk plan part.Cross)
            ++ all_worded words (switch_walk plan part.Turn)) result self.new meter.new }
        ensures noted { OnOk result (AreNoted T.kind self.old.plan noted.new.claiming noted.new.granting
            (states (map P.shown self.new.places))) }
    {
        let credited = self.grant_switches(meter, &mut noted.granting)?;
        let granted = self.walk_terminals(meter, Crossing::Grant)?;
        let crossed = self.cross_switches(meter)?;
        let sent = self.walk_terminals(meter, Crossing::Token)?;
        let turned = self.turn_switches(meter, words, noted)?;
        Ok((credited | granted) | (crossed | sent) | turned)
    }

    /// The claims of all switches by turns: of those that are noted, as `claim_outputs` walks them.
    fn claim_by_turns<M: Meter<T>>(
        &mut self,
        meter: &mut M,
        turns: &mut Turns,
        noted: &mut Noted,
    ) -> Result<bool, EventFault>
        requires { AreNoted T.kind self.old.plan noted.old.claiming noted.old.granting (states (map P.shown self.old.places)) }
        ensures does { DoesFairly T.kind P.keeps M.sees P.shown self.old meter.old turns.old
            (λ plan. fair_claims turns.old (length plan.switches)) result self.new meter.new turns.new }
        ensures grants { OnOk result (AreSo (GrantsNone T.kind self.old.plan) noted.new.granting
            (states (map P.shown self.new.places)) 0 (length self.old.plan.switches)) }
    {
        // The proof reads here that the turns have each of the links.
        let _turns = turns.of(0);
        let mut changed = false;
        let mut from = 0;
        while let Some(switch) = self.next_claiming(&noted.claiming, from) {
            noted.granting.add(switch);
            let done = self.claim_in_turn(meter, turns, switch)?;
            changed |= done;
            from = switch + 1;
        }
        Ok(changed)
    }

    /// The claims of a switch by its turns. Those of an input that wants no output are left out.
    fn claim_in_turn<M: Meter<T>>(
        &mut self,
        meter: &mut M,
        turns: &mut Turns,
        switch: usize,
    ) -> Result<bool, EventFault>
        requires { switch < length self.old.plan.switches }
        ensures does { DoesFairly T.kind P.keeps M.sees P.shown self.old meter.old turns.old
            (λ plan. switch_turns switch (turns_of turns.old switch)) result self.new meter.new turns.new }
        ensures others { LeavesOthers switch (states (map P.shown self.old.places)) (states (map P.shown self.new.places)) }
        ensures turns { (k : ℕ) → k ≢ switch → slice_get turns.new k ≡ slice_get turns.old k }
    {
        let order = turns.of(switch);
        let mut wanting = self.wanting(switch);
        let mut changed = false;
        for position in 0..LINKS {
            let input = order.inputs.link(position);
            let done = self.claim_if_wanting(
                meter,
                turns,
                switch,
                input,
                order.outputs,
                &mut wanting,
            )?;
            changed |= done;
        }
        Ok(changed)
    }

    /// The claims of an input, in this order of outputs, if it is among those that want one. They are looked for again where
    /// a claim may have been made.
    #[inline(always)]
    fn claim_if_wanting<M: Meter<T>>(
        &mut self,
        meter: &mut M,
        turns: &mut Turns,
        switch: usize,
        input: usize,
        outputs: Order,
        wanting: &mut LinkSet,
    ) -> Result<bool, EventFault>
        requires switch { switch < length self.old.plan.switches }
        requires input { input < LINKS }
        requires order { IsOrder outputs }
        requires wanting { IdleOutside T.kind (engine_network P.shown self.old) (output_walk switch) wanting.old }
        ensures does { DoesFairly T.kind P.keeps M.sees P.shown self.old meter.old turns.old
            (λ plan. output_turns switch input outputs) result self.new meter.new turns.new }
        ensures others { LeavesOthers switch (states (map P.shown self.old.places)) (states (map P.shown self.new.places)) }
        ensures turns { (k : ℕ) → k ≢ switch → slice_get turns.new k ≡ slice_get turns.old k }
        ensures wanting { OnOk result
            (IdleOutside T.kind (engine_network P.shown self.new) (output_walk switch) wanting.new) }
    {
        if !wanting.has(input) {
            return Ok(false);
        }
        if self.next_claim(switch, input, 0).is_none() {
            return Ok(false);
        }
        let done = self.claim_for_turn(meter, turns, switch, input, outputs)?;
        *wanting = self.wanting(switch);
        Ok(done)
    }

    /// The claims of an input, in this order of outputs. Those that it can't make are left out.
    fn claim_for_turn<M: Meter<T>>(
        &mut self,
        meter: &mut M,
        turns: &mut Turns,
        switch: usize,
        input: usize,
        outputs: Order,
    ) -> Result<bool, EventFault>
        requires switch { switch < length self.old.plan.switches }
        requires input { input < LINKS }
        requires order { IsOrder outputs }
        ensures does { DoesFairly T.kind P.keeps M.sees P.shown self.old meter.old turns.old
            (λ plan. output_turns switch input outputs) result self.new meter.new turns.new }
        ensures others { LeavesOthers switch (states (map P.shown self.old.places)) (states (map P.shown self.new.places)) }
        ensures turns { (k : ℕ) → k ≢ switch → slice_get turns.new k ≡ slice_get turns.old k }
    {
        let mut claimable = self.claimable(switch, input);
        let mut changed = false;
        for position in 0..LINKS {
            let output = outputs.link(position);
            let done = self.attempt_in_turn(meter, turns, switch, input, output, &mut claimable)?;
            changed |= done;
        }
        Ok(changed)
    }

    /// Tries a claim, if it is of an output that can be claimed, and tells the turns of it where it was done.
    #[inline(always)]
    fn attempt_in_turn<M: Meter<T>>(
        &mut self,
        meter: &mut M,
        turns: &mut Turns,
        switch: usize,
        input: usize,
        output: usize,
        claimable: &mut LinkSet,
    ) -> Result<bool, EventFault>
        requires switch { switch < length self.old.plan.switches }
        requires input { input < LINKS }
        requires output { output < LINKS }
        requires claimable { IdleOutside T.kind (engine_network P.shown self.old)
            (λ o. event.Claim switch input o ∷ []) claimable.old }
        ensures does { DoesFairly T.kind P.keeps M.sees P.shown self.old meter.old turns.old
            (λ plan. event.Claim switch input output ∷ []) result self.new meter.new turns.new }
        ensures others { LeavesOthers switch (states (map P.shown self.old.places)) (states (map P.shown self.new.places)) }
        ensures turns { (k : ℕ) → k ≢ switch → slice_get turns.new k ≡ slice_get turns.old k }
        ensures claimable { OnOk result (IdleOutside T.kind (engine_network P.shown self.new)
            (λ o. event.Claim switch input o ∷ []) claimable.new) }
    {
        if !claimable.has(output) {
            return Ok(false);
        }
        let done = self.serve_in_turn(meter, turns, switch, input, output)?;
        *claimable = self.claimable(switch, input);
        Ok(done)
    }

    /// Tries a claim, and tells the turns of it where it was done.
    fn serve_in_turn<M: Meter<T>>(
        &mut self,
        meter: &mut M,
        turns: &mut Turns,
        switch: usize,
        input: usize,
        output: usize,
    ) -> Result<bool, EventFault>
        requires switch { switch < length self.old.plan.switches }
        requires input { input < LINKS }
        requires output { output < LINKS }
        ensures does { DoesFairly T.kind P.keeps M.sees P.shown self.old meter.old turns.old
            (λ plan. event.Claim switch input output ∷ []) result self.new meter.new turns.new }
        ensures others { LeavesOthers switch (states (map P.shown self.old.places)) (states (map P.shown self.new.places)) }
        ensures turns { (k : ℕ) → k ≢ switch → slice_get turns.new k ≡ slice_get turns.old k }
    {
        let done = self.attempt_claim(meter, switch, input, output)?;
        if done {
            turns.serve(switch, input, output);
        }
        Ok(done)
    }
}
