//! The wires of a plan, by port.
//!
//! It lies beside the nodes, with the plan that it is made from, so it can be asked with no node at hand, and no node
//! keeps which links are wired.
ghost use Rattle.std.specs.Prelude.{IfOk, MatchResult, None, Some, length, true, ℕ, ◌+◌, ◌<◌, ◌≡◌, ◌≢◌};
ghost use Rattle.{c104_crossbar.specs.Groups.has_bit, c104_node.specs.Records.has_link, c104_plan.specs.{Plans.IsPlan, Wiring.IsPlanPort}};
ghost use Rattle.{c104_regs.specs.declared.registers.TheConstants.LINKS, c104_run.specs.{Ends.end_of, FarEnds.far_end}};
ghost use Rattle.c104_run.specs.{KnownWires.is_linked_end, Network.{terminal_place, wired_fault}, Rounds.is_wired};
ghost use Rattle.c104_plan.specs.declared.ports.Port.TheVariants as port;

mod tables;

use c104_event::{EventFault, Port};
use c104_node::End;
use c104_plan::Plan;
use c104_switch::{LINKS, LinkSet};
use c104_token::NoMemory;
use std::alloc::Global;
use std::marker::Model;
use tables::far_ends;

/// A plan, with the table of its wires: the far end at each port is one look-up.
#[derive(Drop)]
pub struct Wires {
    plan: Plan,
    // The far end at link l of switch s is at place 32 s + l.
    links: Vec<Option<End>>,
    terminals: Vec<Option<End>>,
    // The wired links of each switch.
    linked: Vec<LinkSet>,
}

impl Model for Wires {
    ghost use Rattle.std.specs.Prelude.{length, ◌≡◌};
    ghost use Rattle.{c104_plan.specs.Plans.Plan, c104_run.specs.{FarEnds.{link_ends, terminal_ends}, LinkedSets.AreLinked}};

    ghost Value = { Plan };

    ghost view = { λ wires. wires.plan };

    ghost invariant = { λ wires.
        (wires.links.items ≡ link_ends wires.plan)
        × (wires.terminals.items ≡ terminal_ends wires.plan)
        × AreLinked wires.plan (length wires.plan.switches) wires.linked.items };
}

/// The ends of a wire: that of the port that was named, and the other.
#[derive(Clone, Copy)]
pub struct Ends {
    pub near: End,
    pub far: End,
}

impl Wires {
    /// The wires of this plan. The only error is out of memory.
    pub fn new(alloc: Global, plan: Plan) -> Result<Self, NoMemory>
        ensures { IfOk result (λ wires. wires ≡ plan) }
    {
        let ends = far_ends(alloc, &plan)?;
        Ok(Wires {
            plan,
            links: ends.links,
            terminals: ends.terminals,
            linked: ends.linked,
        })
    }

    /// The plan.
    pub fn plan(&self) -> &Plan
        ensures plan { result.now ≡ self.now }
        ensures kept { IsPlan self.now }
    {
        // The proof reads here what every plan keeps.
        let _switches = self.plan.switches();
        &self.plan
    }

    /// How many switches the plan has.
    #[inline(always)]
    pub fn switch_count(&self) -> usize
        ensures { result ≡ length self.now.switches }
    {
        self.plan.switches().len()
    }

    /// How many terminals it has.
    #[inline(always)]
    pub fn terminal_count(&self) -> usize
        ensures { result ≡ length self.now.terminals }
    {
        self.plan.terminals().len()
    }

    /// How many nodes it has: switches, and then terminals.
    #[inline(always)]
    pub fn place_count(&self) -> usize
        ensures { result ≡ length self.now.switches + length self.now.terminals }
    {
        // The proof reads here what every plan keeps.
        let _plan = self.plan();
        self.switch_count() + self.terminal_count()
    }

    /// The place of a terminal among the nodes.
    #[inline(always)]
    pub fn terminal_place(&self, terminal: usize) -> usize
        requires { terminal < length self.now.terminals }
        ensures { result ≡ terminal_place self.now terminal }
    {
        self.plan.switches().len() + terminal
    }

    /// The wired links of a switch.
    #[inline(always)]
    pub fn linked(&self, switch: usize) -> LinkSet
        requires { switch < length self.now.switches }
        ensures linked { (l : ℕ) → l < LINKS →
            has_bit result l ≡ is_wired self.now (port.Switch switch l) }
        ensures wired { (l : ℕ) → l < LINKS → has_bit result l ≡ true →
            wired_fault self.now (port.Switch switch l) ≡ None }
    {
        // The proof reads here what every plan keeps.
        let _switches = self.plan.switches();
        self.linked[switch]
    }

    /// Whether a port has a wire. One that the plan doesn't have has none.
    #[tactic(auto, using(crate::proofs::WiredPorts::wire_there, crate::proofs::WiredPorts::no_wire))]
    pub fn is_wired(&self, port: Port) -> bool
        ensures { result ≡ is_wired self.now port }
    {
        // The proof reads here what every plan keeps.
        let _plan = self.plan();
        self.ends(port).is_ok()
    }

    /// Whether a terminal has a wire.
    #[inline(always)]
    pub fn is_linked(&self, terminal: usize) -> bool
        requires { terminal < length self.now.terminals }
        ensures linked { result ≡ is_wired self.now (port.Terminal terminal) }
        ensures wired { result ≡ true → wired_fault self.now (port.Terminal terminal) ≡ None }
    {
        // The proof reads here what every plan keeps.
        let _switches = self.plan.switches();
        let far = self.far_end(Port::Terminal(terminal));
        far.is_some()
    }

    /// The wired links of the node at a place: the switches in order, and then the terminals. A terminal's one link is 0.
    #[tactic(auto, using(crate::proofs::LinkedNodes::linked_switch, crate::proofs::LinkedNodes::linked_terminal))]
    pub fn node_links(&self, place: usize) -> LinkSet
        requires { place < length self.now.switches + length self.now.terminals }
        ensures { (l : ℕ) → has_link result l ≡ is_linked_end self.now place l }
    {
        // The proof reads here what every plan keeps.
        let _plan = self.plan();
        let switches = self.switch_count();
        if place < switches {
            return self.linked(place);
        }
        let mut links = LinkSet::new();
        links.set(0, self.is_linked(place - switches));
        links
    }

    /// The near end of the wire at a port.
    #[inline(always)]
    pub fn near_end(&self, port: Port) -> End
        requires { wired_fault self.now port ≡ None }
        ensures { result ≡ end_of self.now port }
    {
        end_of(&self.plan, port)
    }

    /// The plan alone.
    pub fn into_plan(self) -> Plan
        ensures { result ≡ self }
    {
        self.plan
    }

    /// The ends of the wire at a port, which are at two nodes. NoNode, NoLink or NotWired where
    /// there is none.
    #[inline(always)]
    pub fn ends(&self, port: Port) -> Result<Ends, EventFault>
        ensures fault { MatchResult result
            (λ ends. wired_fault self.now port ≡ None)
            (λ fault. wired_fault self.now port ≡ Some fault) }
        ensures near { IfOk result (λ ends. ends.near ≡ end_of self.now port) }
        ensures far { IfOk result (λ ends. far_end self.now port ≡ Some ends.far) }
        ensures apart { IfOk result (λ ends. ends.near.node ≢ ends.far.node) }
    {
        let switches = self.plan.switches().len();
        match port {
            Port::Switch(switch, _) if switch >= switches => return Err(EventFault::NoNode),
            Port::Switch(_, link) if link >= LINKS => return Err(EventFault::NoLink),
            Port::Terminal(terminal) if terminal >= self.plan.terminals().len() => {
                return Err(EventFault::NoNode);
            }
            _ => (),
        }
        let Some(far) = self.far_end(port) else {
            return Err(EventFault::NotWired);
        };
        Ok(Ends {
            near: end_of(&self.plan, port),
            far,
        })
    }

    /// The ends of the wire at a port that has one, which are at two nodes.
    #[inline(always)]
    pub fn wired_ends(&self, port: Port) -> Ends
        requires { wired_fault self.now port ≡ None }
        ensures near { result.near ≡ end_of self.now port }
        ensures far { far_end self.now port ≡ Some result.far }
        ensures apart { result.near.node ≢ result.far.node }
    {
        // The proof reads here what every plan keeps.
        let _switches = self.plan.switches();
        let Some(far) = self.far_end(port) else {
            unreachable!()
        };
        Ends {
            near: end_of(&self.plan, port),
            far,
        }
    }

    /// The far end of the wire at a port of the plan. None where it has no wire.
    #[inline(always)]
    fn far_end(&self, port: Port) -> Option<End>
        requires { IsPlanPort self.now port }
        ensures { result ≡ far_end self.now port }
    {
        match port {
            Port::Switch(switch, link) => self.end_of_link(switch, link),
            Port::Terminal(terminal) => self.terminals[terminal],
        }
    }

    /// The far end of the wire at a link of a switch of the plan.
    #[inline(always)]
    fn end_of_link(&self, switch: usize, link: usize) -> Option<End>
        requires { IsPlanPort self.now (port.Switch switch link) }
        ensures { result ≡ far_end self.now (port.Switch switch link) }
    {
        // The plan has at most 64 switches, so the sum fits.
        let _switches = self.plan.switches();
        self.links[switch * LINKS + link]
    }
}

/// Where a port is among the nodes.
#[inline(always)]
fn end_of(plan: &Plan, port: Port) -> End
    requires { IsPlanPort plan.now port }
    ensures { result ≡ end_of plan.now port }
{
    let terminals = plan.terminals().len();
    let switches = plan.switches().len();
    match port {
        Port::Switch(switch, link) => End { node: switch, link },
        Port::Terminal(terminal) => {
            prove!(terminal < terminals);
            End {
                node: switches + terminal,
                link: 0,
            }
        }
    }
}
