//! Rounds, in which every part of a network takes its turn.
//!
//! No list of a round's events is made. Each part walks the places at which something may begin (`LivePlaces`), and leaves
//! out an event of which the near end says that it isn't ready: it would change nothing.
ghost use Rattle.std.specs.Prelude.{OnOk, length, map, ◌+◌, ◌<◌, ◌≡◌};
ghost use Rattle.{c104_node.specs.Places.states, c104_run.specs.{Engines.{DoesPart, engine_at}, EventRuns.EventsEnd}};
ghost use Rattle.c104_run.specs.{HandedWords.{round_with, rounds_with}, Meters.metered_apply, NotedSwitches.{AreSo, GrantsNone}};

mod attempts;
mod fair;
mod finding;
mod noted;
mod walks;

use super::Engine;
use crate::meter::Meter;
use crate::watch::Watch;
use crate::words::Words;
use c104_event::EventFault;
use c104_node::{Crossing, Place, is_idle_at};
use c104_token::TokenKind;
use noted::Noted;

impl<T: TokenKind, P: Place<T>> Engine<T, P> {
    /// Does `times` rounds whose inputs are handed words, those of each round behind those of the one before, up to the first
    /// fault of an event, and tells of each that changed something.
    pub fn rounds<W: Watch, M: Meter<T>>(
        &mut self,
        times: u32,
        words: Words,
        meter: &mut M,
        watch: &mut W,
    ) -> Result<(), EventFault>
        ensures plan { self.new.plan ≡ self.old.plan }
        ensures ends { EventsEnd (metered_apply T.kind P.keeps M.sees) (engine_at P.shown self.old meter.old)
            (rounds_with words self.old.plan times) result (engine_at P.shown self.new meter.new) }
    {
        let mut noted = Noted::all();
        let mut handed = words;
        for round in 0..times {
            let changed = self.round_by(meter, handed, &mut noted)?;
            if !changed && self.count < u64::MAX {
                // Nor would any further round change anything, whatever its words. At the largest count, which no network comes
                // near, the count doesn't tell that no event was done.
                return Ok(());
            }
            handed = handed.next(self.switch_count());
            watch.rounds_done(round + 1, times);
        }
        Ok(())
    }

    /// Does one round whose inputs are handed words, and tells whether any event of it was done.
    pub fn round<M: Meter<T>>(&mut self, words: Words, meter: &mut M) -> Result<bool, EventFault>
        ensures { DoesPart T.kind P.keeps M.sees P.shown self.old meter.old (round_with words) result self.new meter.new }
    {
        self.round_by(meter, words, &mut Noted::all())
    }

    /// The same by what was noted of the grants of switches, which is noted anew. Each part of a round that is about ports is
    /// walked at the switches, and then at the terminals.
    #[inline(always)]
    fn round_by<M: Meter<T>>(
        &mut self,
        meter: &mut M,
        words: Words,
        noted: &mut Noted,
    ) -> Result<bool, EventFault>
        requires { AreSo (GrantsNone T.kind self.old.plan) noted.old.granting (states (map P.shown self.old.places))
            0 (length self.old.plan.switches) }
        ensures does { DoesPart T.kind P.keeps M.sees P.shown self.old meter.old (round_with words) result self.new meter.new }
        ensures grants { OnOk result (AreSo (GrantsNone T.kind self.old.plan) noted.new.granting
            (states (map P.shown self.new.places)) 0 (length self.old.plan.switches)) }
    {
        let credited = self.grant_switches(meter, &mut noted.granting)?;
        let granted = self.walk_terminals(meter, Crossing::Grant)?;
        let crossed = self.cross_switches(meter)?;
        let sent = self.walk_terminals(meter, Crossing::Token)?;
        // A terminal has no input.
        let turned = self.turn_switches(meter, words, noted)?;
        let claimed = self.claim_outputs(meter, noted)?;
        let drained = self.drain_terminals(meter)?;
        self.settle();
        Ok((credited | granted) | (crossed | sent) | turned | claimed | drained)
    }

    /// Takes the places out at which nothing can begin now. They are asked after some rounds alone, since this takes as long
    /// as a round in which little happens.
    fn settle(&mut self)
        ensures { self.new ≡ self.old }
    {
        if self.live.is_due() {
            self.take_out_idle();
        }
    }

    /// Takes the places out at which nothing can begin now, unless most would be left: then all are, since all are walked
    /// faster than most.
    fn take_out_idle(&mut self)
        ensures { self.new ≡ self.old }
    {
        let end = self.place_count();
        let mut left = 0usize;
        let mut from = 0;
        while let Some(place) = self.next_live(from, end) {
            from = place + 1;
            if !self.take_out(place) {
                left = left.saturating_add(1);
            }
        }
        if left > end / 2 {
            self.put_all();
        }
    }

    /// Puts all places into the set of those at which something may begin.
    fn put_all(&mut self)
        ensures { self.new ≡ self.old }
    {
        self.live.fill();
    }

    /// Takes a place out at which nothing can begin now, and tells whether it is one.
    #[inline(always)]
    fn take_out(&mut self, place: usize) -> bool
        requires { place < length self.old.plan.switches + length self.old.plan.terminals }
        ensures { self.new ≡ self.old }
    {
        let links = self.wires.node_links(place);
        if !is_idle_at(self.places.as_slice(), place, links) {
            return false;
        }
        self.live.remove(place);
        true
    }
}
