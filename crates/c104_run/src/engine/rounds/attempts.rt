//! One event of a round, which tells whether it was done, and is counted where it was.
//!
//! A round knows of each of its events that it can happen, and what acts it asks: so an event is tried by its acts.
ghost use Rattle.std.specs.Prelude.{None, Some, [], is_some, length, map, true, ℕ, ◌-◌, ◌<◌, ◌∷◌, ◌≡◌};
ghost use Rattle.{c104_event.specs.declared.events.Event.Event as TheEvent, c104_node.specs.{ActLinks.act_link, Acts.IsWithinLimits}};
ghost use Rattle.c104_node.specs.{Acts.nodes_act, PlaceActs.AloneDone, Places.states, PortActs.{Acts, near_act}, Traces.seatless};
ghost use Rattle.{c104_regs.specs.declared.registers.TheConstants.LINKS, c104_run.specs.Engines.{DoesPart, TellsDone, engine_network, engine_of}};
ghost use Rattle.c104_run.specs.{EventActs.{crossing_event, event_acts, port_place}, EventsAtPlaces.told_answer, HandedWords.all_worded};
ghost use Rattle.c104_run.specs.{LinkedSets.{LeavesCrossed, LeavesLinks}, LivePlaces.IsOfRound, Meters.meter_after, NetRecords.is_done};
ghost use Rattle.c104_run.specs.{NetRecords.ticket_after, Network.{event_fault, terminal_place, wired_fault}, NotedSwitches.LeavesEnds};
ghost use Rattle.c104_run.specs.{NotedSwitches.{LeavesOthers, LeavesUnnoted}, RoundParts.{CanTry, crossing_part, done_answer}};
ghost use Rattle.{c104_run.specs.RoundParts.wired_events, c104_switch.specs.declared.actions.ReplyOf.ReplyOf as TheReply};
ghost use Rattle.c104_event.specs.declared.events.Event.TheVariants as event;
ghost use Rattle.c104_node.specs.declared.acts.ActOf.TheVariants as of_node;
ghost use Rattle.c104_node.specs.declared.port_part.PortPart.TheVariants as part;
ghost use Rattle.c104_plan.specs.declared.ports.Port.TheVariants as port;
ghost use Rattle.c104_switch.specs.declared.actions.ActionOf.TheVariants as of_switch;

use crate::asked::far_port;
use crate::doing::do_alone;
use crate::engine::Engine;
use crate::live_places::LivePlaces;
use crate::meter::{Meter, tell_arrived, tell_joint};
use crate::words::Words;
use c104_event::{EventFault, Port};
use c104_node::{ActOf, Crossing, Joint, Place, Stamp, joint_from};
use c104_switch::{ActionOf, ReplyOf};
use c104_token::TokenKind;

impl<T: TokenKind, P: Place<T>> Engine<T, P> {
    /// Tries a crossing from a port that is wired and ready, and tells whether it was done. Its ticket is the count of the
    /// events before it. What it may begin at either end is among the live places after it: the near end is one before,
    /// since it is ready. A meter is told of a token that crosses.
    #[inline(always)]
    pub(crate) fn attempt_joint<M: Meter<T>>(
        &mut self,
        meter: &mut M,
        port: Port,
        crossing: Crossing,
    ) -> Result<bool, EventFault>
        requires wired { wired_fault self.old.plan port ≡ None }
        requires goes { is_some (nodes_act T.kind (states (map P.shown self.old.places))
            (port_place self.old.plan port) 0 (near_act crossing port)) ≡ true }
        ensures does { DoesPart T.kind P.keeps M.sees P.shown self.old meter.old
            (λ plan. crossing_event crossing port ∷ []) result self.new meter.new }
        ensures others { LeavesEnds self.old.plan port (states (map P.shown self.old.places))
            (states (map P.shown self.new.places)) }
        ensures links { LeavesCrossed T.kind crossing port (states (map P.shown self.old.places))
            (states (map P.shown self.new.places)) }
    {
        let ends = self.wires.wired_ends(port);
        let joint = Joint {
            near: port,
            far: far_port(&self.wires, port, ends.far),
            crossing,
        };
        let stamp = Stamp {
            ticket: self.count,
            seat: None,
        };
        self.live.add(ends.far.node);
        let places = self.places.as_mut_slice();
        let answer = joint_from(places, ends.near.node, ends.far.node, joint, stamp);
        tell_joint(meter, crossing, port, &answer);
        self.counted(answer)
    }

    /// Tries what crosses from a port that is wired and ready in a part of a round.
    #[inline(always)]
    pub(crate) fn attempt_part<M: Meter<T>>(
        &mut self,
        meter: &mut M,
        port: Port,
        crossing: Crossing,
    ) -> Result<bool, EventFault>
        requires { CanTry T.kind (engine_network P.shown self.old) (crossing_part crossing) port }
        ensures does { DoesPart T.kind P.keeps M.sees P.shown self.old meter.old
            (λ plan. wired_events plan (crossing_part crossing) port) result self.new meter.new }
        ensures others { LeavesEnds self.old.plan port (states (map P.shown self.old.places))
            (states (map P.shown self.new.places)) }
        ensures links { LeavesCrossed T.kind crossing port (states (map P.shown self.old.places))
            (states (map P.shown self.new.places)) }
    {
        self.attempt_joint(meter, port, crossing)
    }

    /// The same of a grant at a link of a switch. Nothing is known any more of the grants of the far end.
    #[inline(always)]
    pub(crate) fn attempt_grant<M: Meter<T>>(
        &mut self,
        meter: &mut M,
        granting: &mut LivePlaces,
        switch: usize,
        link: usize,
    ) -> Result<bool, EventFault>
        requires { CanTry T.kind (engine_network P.shown self.old) part.Credit (port.Switch switch link) }
        ensures does { DoesPart T.kind P.keeps M.sees P.shown self.old meter.old
            (λ plan. wired_events plan part.Credit (port.Switch switch link)) result self.new meter.new }
        ensures others { LeavesUnnoted switch granting.old (states (map P.shown self.old.places))
            granting.new (states (map P.shown self.new.places)) }
        ensures links { LeavesLinks T.kind part.Credit switch link (states (map P.shown self.old.places))
            (states (map P.shown self.new.places)) }
    {
        let port = Port::Switch(switch, link);
        granting.add(self.wires().wired_ends(port).far.node);
        self.attempt_part(meter, port, Crossing::Grant)
    }

    /// The same of a turn of the input at a wired link, with its word.
    #[inline(always)]
    pub(crate) fn attempt_turn<M: Meter<T>>(
        &mut self,
        meter: &mut M,
        words: Words,
        switch: usize,
        link: usize,
    ) -> Result<bool, EventFault>
        requires { CanTry T.kind (engine_network P.shown self.old) part.Turn (port.Switch switch link) }
        ensures does { DoesPart T.kind P.keeps M.sees P.shown self.old meter.old
            (λ plan. all_worded words (wired_events plan part.Turn (port.Switch switch link))) result self.new meter.new }
        ensures others { LeavesOthers switch (states (map P.shown self.old.places)) (states (map P.shown self.new.places)) }
        ensures links { LeavesLinks T.kind part.Turn switch link (states (map P.shown self.old.places))
            (states (map P.shown self.new.places)) }
    {
        let word = words.word(switch, link);
        self.attempt_alone(meter, switch, ActOf::Step(ActionOf::Input(link, word)))
    }

    /// The same of a claim.
    pub(crate) fn attempt_claim<M: Meter<T>>(
        &mut self,
        meter: &mut M,
        switch: usize,
        input: usize,
        output: usize,
    ) -> Result<bool, EventFault>
        requires switch { switch < length self.old.plan.switches }
        requires input { input < LINKS }
        requires output { output < LINKS }
        ensures does { DoesPart T.kind P.keeps M.sees P.shown self.old meter.old
            (λ plan. event.Claim switch input output ∷ []) result self.new meter.new }
        ensures told { TellsDone T.kind P.keeps M.sees P.shown self.old meter.old (event.Claim switch input output) result }
        ensures others { LeavesOthers switch (states (map P.shown self.old.places)) (states (map P.shown self.new.places)) }
    {
        self.attempt_alone(meter, switch, ActOf::Step(ActionOf::Claim(input, output)))
    }

    /// The same of an arrival at a terminal. A meter is told of the token.
    #[inline(always)]
    pub(crate) fn attempt_drain<M: Meter<T>>(
        &mut self,
        meter: &mut M,
        terminal: usize,
    ) -> Result<bool, EventFault>
        requires { terminal < length self.old.plan.terminals }
        ensures does { DoesPart T.kind P.keeps M.sees P.shown self.old meter.old
            (λ plan. event.Drain terminal ∷ []) result self.new meter.new }
        ensures others { LeavesOthers (terminal_place self.old.plan terminal)
            (states (map P.shown self.old.places)) (states (map P.shown self.new.places)) }
    {
        let place = self.terminal_place(terminal);
        let answer = self.do_next(place, ActOf::Drain);
        tell_arrived(meter, terminal, &answer);
        self.counted(answer)
    }

    /// Tries an event that can happen and asks an act of one node, and tells whether it was done. It is one of which a meter
    /// isn't told.
    #[inline(always)]
    fn attempt_alone<M: Meter<T>>(
        &mut self,
        _meter: &M,
        place: usize,
        act: ActOf<T>,
    ) -> Result<bool, EventFault>
        requires short { IsWithinLimits act }
        requires lone { act_link act ≡ None }
        requires begins { IsOfRound T.kind self.old.plan place act }
        ensures does { (e : TheEvent) → event_fault self.old.plan e ≡ None →
            event_acts self.old.plan e ≡ Some (Acts.Alone place act) →
            ((reply : TheReply T) → meter_after M.sees _meter.now e reply ≡ _meter.now) →
            DoesPart T.kind P.keeps M.sees P.shown self.old _meter.now (λ plan. e ∷ []) result self.new _meter.now }
        ensures told { (e : TheEvent) → event_fault self.old.plan e ≡ None →
            event_acts self.old.plan e ≡ Some (Acts.Alone place act) →
            TellsDone T.kind P.keeps M.sees P.shown self.old _meter.now e result }
        ensures others { LeavesOthers place (states (map P.shown self.old.places)) (states (map P.shown self.new.places)) }
        ensures links { (l word : ℕ) → act ≡ of_node.Step (of_switch.Input l word) → LeavesLinks T.kind part.Turn place l
            (states (map P.shown self.old.places)) (states (map P.shown self.new.places)) }
    {
        let answer = self.do_next(place, act);
        self.counted(answer)
    }

    /// The node at a place does an act of a round, as the event of the next ticket. Where it is ready the place is a live
    /// one, and where it isn't nothing changes.
    #[inline(always)]
    fn do_next(&mut self, place: usize, act: ActOf<T>) -> Result<ReplyOf<T>, EventFault>
        requires short { IsWithinLimits act }
        requires lone { act_link act ≡ None }
        requires begins { IsOfRound T.kind self.old.plan place act }
        ensures plan { self.new.plan ≡ self.old.plan }
        ensures count { self.new.count ≡ self.old.count }
        ensures done { AloneDone T.kind P.keeps place (place - length self.old.plan.switches) (seatless self.old.count) act
            (map P.shown self.old.places) result (map P.shown self.new.places) }
    {
        let switches = self.wires.switch_count();
        let stamp = Stamp {
            ticket: self.count,
            seat: None,
        };
        do_alone(switches, self.places.as_mut_slice(), place, act, stamp)
    }

    /// Counts an event that was answered so, if it was done, and tells whether it was.
    // Saturating: no network comes near the end, since its traces are full long before.
    #[inline(always)]
    fn counted(&mut self, answer: Result<ReplyOf<T>, EventFault>) -> Result<bool, EventFault>
        ensures told { result ≡ done_answer (told_answer T.kind answer) }
        ensures next { self.new ≡
            engine_of self.old.plan self.old.places
            (ticket_after self.old.count (is_done (told_answer T.kind answer))) }
    {
        match answer {
            Ok(ReplyOf::NotReady) => Ok(false),
            Ok(_) => {
                self.count = self.count.saturating_add(1);
                Ok(true)
            }
            Err(fault) => Err(fault),
        }
    }
}
