//! The parts of a round, each of which tells whether any of its events was done. The switches and the terminals at which
//! something may begin are walked, a switch by the sets of its links, so that no event is tried of which it is known that
//! its near end isn't ready.
//!
//! A walk goes on where it finds the next number (`IsNext`), and what it has done so far is a part of a round too. Those
//! about ports are inlined, since each part is a code of its own. Which links of a switch are ready is asked once: what is
//! done at one of them leaves the others as they are.
#![tactic(auto, using(crate::proofs::EngineParts::engine_parts))]

ghost use Rattle.std.specs.Prelude.{OnOk, length, map, slice_get, ℕ, ◌<◌, ◌≡◌};
ghost use Rattle.{c104_node.specs.Places.states, c104_regs.specs.declared.registers.TheConstants.LINKS, c104_run.specs.Engines.DoesPart};
ghost use Rattle.c104_run.specs.{Engines.engine_network, HandedWords.all_worded, NotedSwitches.{AreNoted, AreSo, GrantsNone, LeavesOthers}};
ghost use Rattle.c104_run.specs.{NotedSwitches.LeavesUnnoted, RoundParts.{claim_walk, crossing_part, drain_walk, input_walk, link_walk}};
ghost use Rattle.c104_run.specs.RoundParts.{output_walk, port_walk, switch_walk, terminal_walk};
ghost use Rattle.c104_node.specs.declared.port_part.PortPart.TheVariants as part;
ghost use Rattle.c104_plan.specs.declared.ports.Port.TheVariants as port;

use super::noted::Noted;
use crate::engine::Engine;
use crate::live_places::LivePlaces;
use crate::meter::Meter;
use crate::words::Words;
use c104_event::{EventFault, Port};
use c104_node::{Crossing, Place, PortPart};
use c104_token::TokenKind;

impl<T: TokenKind, P: Place<T>> Engine<T, P> {
    /// The grants at the wired links of the switches: of those that are noted, and of the far ends of what was granted.
    pub(crate) fn grant_switches<M: Meter<T>>(
        &mut self,
        meter: &mut M,
        granting: &mut LivePlaces,
    ) -> Result<bool, EventFault>
        requires { AreSo (GrantsNone T.kind self.old.plan) granting.old (states (map P.shown self.old.places))
            0 (length self.old.plan.switches) }
        ensures { DoesPart T.kind P.keeps M.sees P.shown self.old meter.old
            (λ plan. switch_walk plan part.Credit) result self.new meter.new }
    {
        let mut changed = false;
        let mut from = 0;
        while let Some(switch) = self.next_granting(granting, from) {
            let done = self.grant_links(meter, granting, switch)?;
            changed |= done;
            from = switch + 1;
        }
        Ok(changed)
    }

    /// The grants at the wired links of a switch.
    #[inline(always)]
    fn grant_links<M: Meter<T>>(
        &mut self,
        meter: &mut M,
        granting: &mut LivePlaces,
        switch: usize,
    ) -> Result<bool, EventFault>
        requires { switch < length self.old.plan.switches }
        ensures does { DoesPart T.kind P.keeps M.sees P.shown self.old meter.old
            (λ plan. link_walk plan part.Credit switch) result self.new meter.new }
        ensures others { LeavesUnnoted switch granting.old (states (map P.shown self.old.places))
            granting.new (states (map P.shown self.new.places)) }
    {
        let ready = self.ready_links(PortPart::Credit, switch);
        let mut changed = false;
        let mut from = 0;
        while let Some(link) = self.next_link(PortPart::Credit, switch, ready, from) {
            let done = self.attempt_grant(meter, granting, switch, link)?;
            changed |= done;
            from = link + 1;
        }
        Ok(changed)
    }

    /// What crosses from the wired links of the switches.
    pub(crate) fn cross_switches<M: Meter<T>>(&mut self, meter: &mut M) -> Result<bool, EventFault>
        ensures { DoesPart T.kind P.keeps M.sees P.shown self.old meter.old
            (λ plan. switch_walk plan part.Cross) result self.new meter.new }
    {
        let mut changed = false;
        let mut from = 0;
        while let Some(switch) = self.next_switch(from) {
            let done = self.cross_links(meter, switch)?;
            changed |= done;
            from = switch + 1;
        }
        Ok(changed)
    }

    /// What crosses from the wired links of a switch.
    #[inline(always)]
    fn cross_links<M: Meter<T>>(&mut self, meter: &mut M, switch: usize) -> Result<bool, EventFault>
        requires { switch < length self.old.plan.switches }
        ensures { DoesPart T.kind P.keeps M.sees P.shown self.old meter.old
            (λ plan. link_walk plan part.Cross switch) result self.new meter.new }
    {
        let ready = self.ready_links(PortPart::Cross, switch);
        let mut changed = false;
        let mut from = 0;
        while let Some(link) = self.next_link(PortPart::Cross, switch, ready, from) {
            let done = self.attempt_part(meter, Port::Switch(switch, link), Crossing::Token)?;
            changed |= done;
            from = link + 1;
        }
        Ok(changed)
    }

    /// What crosses from the wired terminals: grants, or tokens.
    #[inline(always)]
    pub(crate) fn walk_terminals<M: Meter<T>>(
        &mut self,
        meter: &mut M,
        crossing: Crossing,
    ) -> Result<bool, EventFault>
        ensures { DoesPart T.kind P.keeps M.sees P.shown self.old meter.old
            (λ plan. terminal_walk plan (crossing_part crossing)) result self.new meter.new }
    {
        let mut changed = false;
        let mut from = 0;
        while let Some(terminal) = self.next_terminal(from) {
            let done = self.try_terminal(meter, crossing, terminal)?;
            changed |= done;
            from = terminal + 1;
        }
        Ok(changed)
    }

    /// What crosses from a terminal, if it is wired.
    #[inline(always)]
    fn try_terminal<M: Meter<T>>(
        &mut self,
        meter: &mut M,
        crossing: Crossing,
        terminal: usize,
    ) -> Result<bool, EventFault>
        requires { terminal < length self.old.plan.terminals }
        ensures { DoesPart T.kind P.keeps M.sees P.shown self.old meter.old
            (λ plan. port_walk plan (crossing_part crossing) port.Terminal terminal) result self.new meter.new }
    {
        if !self.is_ready(crossing, terminal) {
            return Ok(false);
        }
        self.attempt_part(meter, Port::Terminal(terminal), crossing)
    }

    /// The turns of the inputs at the wired links of the switches, and what they leave: it is noted at which switches claims
    /// and grants may be done.
    pub(crate) fn turn_switches<M: Meter<T>>(
        &mut self,
        meter: &mut M,
        words: Words,
        noted: &mut Noted,
    ) -> Result<bool, EventFault>
        ensures does { DoesPart T.kind P.keeps M.sees P.shown self.old meter.old
            (λ plan. all_worded words (switch_walk plan part.Turn)) result self.new meter.new }
        ensures noted { OnOk result (AreNoted T.kind self.old.plan noted.new.claiming noted.new.granting
            (states (map P.shown self.new.places))) }
    {
        *noted = Noted::none();
        let mut changed = false;
        let mut from = 0;
        while let Some(switch) = self.next_switch(from) {
            let done = self.turn_links(meter, words, switch)?;
            self.note(switch, noted);
            changed |= done;
            from = switch + 1;
        }
        Ok(changed)
    }

    /// The turns of the inputs at the wired links of a switch.
    #[inline(always)]
    fn turn_links<M: Meter<T>>(
        &mut self,
        meter: &mut M,
        words: Words,
        switch: usize,
    ) -> Result<bool, EventFault>
        requires { switch < length self.old.plan.switches }
        ensures does { DoesPart T.kind P.keeps M.sees P.shown self.old meter.old
            (λ plan. all_worded words (link_walk plan part.Turn switch)) result self.new meter.new }
        ensures others { LeavesOthers switch (states (map P.shown self.old.places)) (states (map P.shown self.new.places)) }
    {
        let ready = self.ready_links(PortPart::Turn, switch);
        let mut changed = false;
        let mut from = 0;
        while let Some(link) = self.next_link(PortPart::Turn, switch, ready, from) {
            let done = self.attempt_turn(meter, words, switch, link)?;
            changed |= done;
            from = link + 1;
        }
        Ok(changed)
    }

    /// The claims of all switches: of those that are noted. What a claim leaves isn't asked: the switch may grant.
    pub(crate) fn claim_outputs<M: Meter<T>>(
        &mut self,
        meter: &mut M,
        noted: &mut Noted,
    ) -> Result<bool, EventFault>
        requires { AreNoted T.kind self.old.plan noted.old.claiming noted.old.granting (states (map P.shown self.old.places)) }
        ensures does { DoesPart T.kind P.keeps M.sees P.shown self.old meter.old
            claim_walk result self.new meter.new }
        ensures grants { OnOk result (AreSo (GrantsNone T.kind self.old.plan) noted.new.granting
            (states (map P.shown self.new.places)) 0 (length self.old.plan.switches)) }
    {
        let mut changed = false;
        let mut from = 0;
        while let Some(switch) = self.next_claiming(&noted.claiming, from) {
            noted.granting.add(switch);
            let done = self.claim_in_switch(meter, switch)?;
            changed |= done;
            from = switch + 1;
        }
        Ok(changed)
    }

    /// The claims of a switch. Those of an input that wants no output are left out.
    fn claim_in_switch<M: Meter<T>>(
        &mut self,
        meter: &mut M,
        switch: usize,
    ) -> Result<bool, EventFault>
        requires { switch < length self.old.plan.switches }
        ensures does { DoesPart T.kind P.keeps M.sees P.shown self.old meter.old
            (λ plan. input_walk switch) result self.new meter.new }
        ensures others { LeavesOthers switch (states (map P.shown self.old.places)) (states (map P.shown self.new.places)) }
    {
        let mut changed = false;
        let mut from = 0;
        while let Some(input) = self.next_wanting(switch, from) {
            let done = self.claim_for_input(meter, switch, input)?;
            changed |= done;
            from = input + 1;
        }
        Ok(changed)
    }

    /// The claims of an input. Those that it can't make are left out, and after one that is made it can
    /// make no more.
    fn claim_for_input<M: Meter<T>>(
        &mut self,
        meter: &mut M,
        switch: usize,
        input: usize,
    ) -> Result<bool, EventFault>
        requires switch { switch < length self.old.plan.switches }
        requires input { input < LINKS }
        ensures does { DoesPart T.kind P.keeps M.sees P.shown self.old meter.old
            (λ plan. output_walk switch input) result self.new meter.new }
        ensures others { LeavesOthers switch (states (map P.shown self.old.places)) (states (map P.shown self.new.places)) }
    {
        let mut changed = false;
        let mut from = 0;
        while let Some(output) = self.next_claim(switch, input, from) {
            let done = self.attempt_claim(meter, switch, input, output)?;
            changed |= done;
            from = output + 1;
        }
        Ok(changed)
    }

    /// A token's arrival at each terminal.
    pub(crate) fn drain_terminals<M: Meter<T>>(&mut self, meter: &mut M) -> Result<bool, EventFault>
        ensures does { DoesPart T.kind P.keeps M.sees P.shown self.old meter.old
            drain_walk result self.new meter.new }
        ensures switches { (j : ℕ) → j < length self.old.plan.switches →
            slice_get (states (map P.shown self.new.places)) j ≡ slice_get (states (map P.shown self.old.places)) j }
    {
        let mut changed = false;
        let mut from = 0;
        while let Some(terminal) = self.next_terminal(from) {
            let done = self.attempt_drain(meter, terminal)?;
            changed |= done;
            from = terminal + 1;
        }
        Ok(changed)
    }
}
