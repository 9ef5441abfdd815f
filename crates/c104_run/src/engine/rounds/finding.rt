//! Where a round goes on: the next place, link, input or output at which an event may be done.
ghost use Rattle.std.specs.{List.range_with_len, Prelude.{IfSome, [], false, length, map, true, unwrap_or, ℕ, ◌<◌, ◌∷◌, ◌≡◌, ◌≢◌, ◌≤◌}};
ghost use Rattle.{c104_node.specs.Places.states, c104_regs.specs.declared.registers.TheConstants.LINKS};
ghost use Rattle.c104_run.specs.{Engines.engine_network, LinkedSets.{HasReady, IdleOutside}, LivePlaces.{IsIdlePlace, is_live, told_places}};
ghost use Rattle.c104_run.specs.{NotedSwitches.{AreSo, ClaimsNone, GrantsNone, IsSoAt}, RoundParts.{AreIdle, CanTry, IsNext}};
ghost use Rattle.c104_run.specs.{RoundParts.{crossing_part, input_walk, link_walk, output_walk, port_walk}, Rounds.link_numbers};
ghost use Rattle.c104_event.specs.declared.events.Event.TheVariants as event;
ghost use Rattle.c104_node.specs.declared.port_part.PortPart.TheVariants as part;
ghost use Rattle.c104_plan.specs.declared.ports.Port.TheVariants as port;

use crate::engine::Engine;
use crate::engine::rounds::noted::Noted;
use crate::live_places::LivePlaces;
use c104_event::Port;
use c104_node::{
    Crossing, Place, PortPart, can_near_at, next_claim_at, next_wanting_at, ready_links_at,
};
use c104_switch::LinkSet;
use c104_token::TokenKind;

impl<T: TokenKind, P: Place<T>> Engine<T, P> {
    /// The next place, from this one on and below another, at which something may begin.
    #[inline(always)]
    pub(crate) fn next_live(&self, from: usize, below: usize) -> Option<usize>
        requires { below ≤ told_places }
        ensures passed { (k : ℕ) → from ≤ k → k < unwrap_or result below →
            IsIdlePlace T.kind self.now.plan (states (map P.shown self.now.places)) k }
        ensures found { IfSome result (λ k. (from ≤ k) × (k < below)) }
    {
        // The proof reads the rest of the engine by this name.
        let _count = self.count;
        self.live.next(from, below)
    }

    /// The next switch, from this one on, at which something may begin.
    #[inline(always)]
    pub(crate) fn next_switch(&self, from: usize) -> Option<usize>
        ensures ports { (part : PortPart) → IsNext T.kind (engine_network P.shown self.now)
            (link_walk self.now.plan part) (range_with_len 0 (length self.now.plan.switches))
            (length self.now.plan.switches) from result }
        ensures passed { (k : ℕ) → from ≤ k → k < unwrap_or result (length self.now.plan.switches) →
            IsIdlePlace T.kind self.now.plan (states (map P.shown self.now.places)) k }
        ensures found { IfSome result (λ k. (from ≤ k) × (k < length self.now.plan.switches)) }
        ensures few { IfSome result (λ k. k < told_places) }
    {
        self.next_live(from, self.switch_count())
    }

    /// The next switch, from this one on, that may grant by what was noted.
    #[inline(always)]
    pub(crate) fn next_granting(&self, granting: &LivePlaces, from: usize) -> Option<usize>
        requires { AreSo (GrantsNone T.kind self.now.plan) granting.now (states (map P.shown self.now.places))
            from (length self.now.plan.switches) }
        ensures next { IsNext T.kind (engine_network P.shown self.now)
            (link_walk self.now.plan part.Credit) (range_with_len 0 (length self.now.plan.switches))
            (length self.now.plan.switches) from result }
        ensures few { IfSome result (λ k. k < told_places) }
    {
        // The proof reads here what every plan keeps.
        let _plan = self.plan();
        granting.next(from, self.switch_count())
    }

    /// The next switch, from this one on, an input of which may claim by what was noted.
    #[inline(always)]
    pub(crate) fn next_claiming(&self, claiming: &LivePlaces, from: usize) -> Option<usize>
        requires { AreSo ClaimsNone claiming.now (states (map P.shown self.now.places)) from (length self.now.plan.switches) }
        ensures next { IsNext T.kind (engine_network P.shown self.now)
            input_walk (range_with_len 0 (length self.now.plan.switches))
            (length self.now.plan.switches) from result }
        ensures few { IfSome result (λ k. k < told_places) }
    {
        // The proof reads here what every plan keeps.
        let _plan = self.plan();
        claiming.next(from, self.switch_count())
    }

    /// Notes a switch at which an input wants an output, and one that can grant.
    #[inline(always)]
    pub(crate) fn note(&self, switch: usize, noted: &mut Noted)
        requires { switch < length self.now.plan.switches }
        ensures claims { IsSoAt ClaimsNone noted.new.claiming (states (map P.shown self.now.places)) switch }
        ensures claiming { (k : ℕ) → k ≢ switch → is_live noted.new.claiming k ≡ is_live noted.old.claiming k }
        ensures grants { IsSoAt (GrantsNone T.kind self.now.plan) noted.new.granting
            (states (map P.shown self.now.places)) switch }
        ensures granting { (k : ℕ) → k ≢ switch → is_live noted.new.granting k ≡ is_live noted.old.granting k }
    {
        let places = self.places();
        let wanting = next_wanting_at(places, switch, 0);
        noted.claiming.add_if(switch, wanting.is_some());
        let ready = self.ready_links(PortPart::Credit, switch);
        let granting = ready.next(0, ready);
        noted.granting.add_if(switch, granting.is_some());
    }

    /// The next terminal, from this one on, at which something may begin.
    #[inline(always)]
    pub(crate) fn next_terminal(&self, from: usize) -> Option<usize>
        requires { from ≤ length self.now.plan.terminals }
        ensures ports { (part : PortPart) → IsNext T.kind (engine_network P.shown self.now)
            (port_walk self.now.plan part port.Terminal) (range_with_len 0 (length self.now.plan.terminals))
            (length self.now.plan.terminals) from result }
        ensures arrivals { IsNext T.kind (engine_network P.shown self.now)
            (λ t. event.Drain t ∷ []) (range_with_len 0 (length self.now.plan.terminals))
            (length self.now.plan.terminals) from result }
        ensures few { IfSome result (λ t. t < told_places) }
    {
        let first = self.switch_count();
        let end = self.place_count();
        match self.next_live(first + from, end) {
            Some(place) => Some(place - first),
            None => None,
        }
    }

    /// The wired links of a switch at which it may do its act of a part.
    #[inline(always)]
    pub(crate) fn ready_links(&self, part: PortPart, switch: usize) -> LinkSet
        requires { switch < length self.now.plan.switches }
        ensures { HasReady T.kind part switch (engine_network P.shown self.now) 0 result }
    {
        let linked = self.wires().linked(switch);
        ready_links_at(self.places(), switch, part).both(linked)
    }

    /// The next of these links, from this one on.
    #[inline(always)]
    pub(crate) fn next_link(
        &self,
        part: PortPart,
        switch: usize,
        ready: LinkSet,
        from: usize,
    ) -> Option<usize>
        requires { HasReady T.kind part switch (engine_network P.shown self.now) from ready }
        ensures next { IsNext T.kind (engine_network P.shown self.now)
            (port_walk self.now.plan part (port.Switch switch)) link_numbers LINKS from result }
        ensures ready { IfSome result
            (λ l. CanTry T.kind (engine_network P.shown self.now) part (port.Switch switch l)) }
    {
        ready.next(from, ready)
    }

    /// Whether a terminal has a wire and is ready for what crosses from there.
    #[inline(always)]
    pub(crate) fn is_ready(&self, crossing: Crossing, terminal: usize) -> bool
        requires { terminal < length self.now.plan.terminals }
        ensures passed { result ≡ false → AreIdle T.kind (engine_network P.shown self.now)
            (port_walk self.now.plan (crossing_part crossing) port.Terminal terminal) }
        ensures ready { result ≡ true →
            CanTry T.kind (engine_network P.shown self.now) (crossing_part crossing) (port.Terminal terminal) }
    {
        if !self.wires().is_linked(terminal) {
            return false;
        }
        let port = Port::Terminal(terminal);
        let place = self.wires().near_end(port).node;
        can_near_at(self.places(), place, crossing, port)
    }

    /// The next input of a switch, from this one on, that wants an output. An input that is passed over claims none.
    #[inline(always)]
    pub(crate) fn next_wanting(&self, switch: usize, from: usize) -> Option<usize>
        requires { switch < length self.now.plan.switches }
        ensures { IsNext T.kind (engine_network P.shown self.now) (output_walk switch) link_numbers LINKS from result }
    {
        next_wanting_at(self.places(), switch, from)
    }

    /// The inputs of a switch that want an output. An input that isn't among them claims none.
    pub(crate) fn wanting(&self, switch: usize) -> LinkSet
        requires { switch < length self.now.plan.switches }
        ensures { IdleOutside T.kind (engine_network P.shown self.now) (output_walk switch) result }
    {
        let mut wanting = LinkSet::new();
        let mut from = 0;
        while let Some(input) = self.next_wanting(switch, from) {
            wanting.set(input, true);
            from = input + 1;
        }
        wanting
    }

    /// The outputs of a switch that an input can claim.
    pub(crate) fn claimable(&self, switch: usize, input: usize) -> LinkSet
        requires switch { switch < length self.now.plan.switches }
        requires input { input < LINKS }
        ensures { IdleOutside T.kind (engine_network P.shown self.now)
            (λ output. event.Claim switch input output ∷ []) result }
    {
        let mut claimable = LinkSet::new();
        let mut from = 0;
        while let Some(output) = self.next_claim(switch, input, from) {
            claimable.set(output, true);
            from = output + 1;
        }
        claimable
    }

    /// The next output of a switch, from this one on, that an input can claim.
    #[inline(always)]
    pub(crate) fn next_claim(&self, switch: usize, input: usize, from: usize) -> Option<usize>
        requires switch { switch < length self.now.plan.switches }
        requires input { input < LINKS }
        ensures { IsNext T.kind (engine_network P.shown self.now)
            (λ output. event.Claim switch input output ∷ []) link_numbers LINKS from result }
    {
        next_claim_at(self.places(), switch, input, from)
    }
}
