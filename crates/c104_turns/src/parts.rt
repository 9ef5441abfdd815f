//! The part that a round has for a node, and which of its events the node may begin.
//!
//! A worker asks a node once for all events of a stage, so that it takes a lock for those alone that may be done. That leaves
//! none out: no event of a stage makes another of the same stage ready at this node. A node tells by sets of its links what may
//! go out, so that none of the events is looked at that it can't begin.
ghost use Rattle.{c104_crossbar.specs.Groups.has_bit, c104_node.specs.{Idle.IsIdleNode, Nodes.is_switch, Records.has_link}};
ghost use Rattle.c104_run.specs.{NetParts.node_count, NodeParts.round_part, Rounds.{claims_of, switch_claims}};
ghost use Rattle.c104_turns.specs.{Parts.{IsOfKind, links_in, may_begin, numbers_in, ready_numbers, stage_count}, Working.IsPartOf};
ghost use Rattle.c104_turns.specs.Working.{is_at_home, is_claim};
ghost use Rattle.std.specs.{List.position_or_len, Prelude.{IfOk, OnOk, [], true, ℕ, ◌++◌, ◌<◌, ◌∷◌, ◌≡◌, ◌≤◌}};
ghost use Rattle.c104_node.specs.declared.node.NodeOf.TheVariants as node;

use c104_event::Event;
use c104_node::{NodeOf, PortPart, TerminalOf};
use c104_run::{Wires, round_part};
use c104_switch::{LINKS, LinkSet};
use c104_token::{NoMemory, TokenKind};
use std::alloc::Global;
use std::marker::Model;

/// The part that a round has for a node.
#[derive(Drop)]
pub struct Part {
    node: usize,
    // Stage by stage: credit and crossings by link, then turns by link or a token's arrival, and then claims by input and
    // output.
    events: Vec<Event>,
    // The links that have wires: one event of each kind for each of them.
    wired: LinkSet,
    // Where the turns begin, and the claims.
    turns: usize,
    claims: usize,
}

impl Model for Part {
    ghost use Rattle.c104_turns.specs.Working.{IsSomePart, PartView};

    ghost Value = { PartView };

    ghost view = { λ p. record { node = p.node; events = p.events.items; wired = p.wired; turns = p.turns; claims = p.claims } };

    ghost invariant = { λ p. IsSomePart
        (record { node = p.node; events = p.events.items; wired = p.wired; turns = p.turns; claims = p.claims }) };
}

/// A stage of a part.
#[derive(Clone, Copy)]
pub enum Stage {
    /// What goes out over wires: credit and tokens.
    Crossings,
    /// Turns of a switch's inputs, or a token's arrival at a terminal.
    Turns,
    /// Claims of a switch.
    Claims,
}

impl Part {
    /// The part of the node at a place. The only error is out of memory.
    pub fn of_round(alloc: Global, wires: &Wires, node: usize) -> Result<Part, NoMemory>
        requires { node < node_count wires.now }
        ensures { IfOk result (λ part. IsPartOf wires.now node part) }
    {
        let events = round_part(alloc, wires, node)?;
        let turns = count_crossings(&events);
        let claims = count_before_claims(&events);
        Ok(Part {
            node,
            events,
            wired: wires.node_links(node),
            turns,
            claims,
        })
    }

    /// The place of the node.
    pub fn node(&self) -> usize
        ensures { result ≡ self.now.node }
    {
        self.node
    }

    /// The events, in the round's order.
    pub fn events(&self) -> &[Event]
        ensures { result.now ≡ self.now.events }
    {
        self.events.as_slice()
    }

    /// Whether no event of the part can begin at the node.
    pub fn is_idle<T: TokenKind>(&self, node: &NodeOf<T>) -> bool
        ensures { result ≡ true → IsIdleNode T.kind (has_link self.now.wired) node.now }
    {
        node.is_idle(self.wired)
    }

    /// How many events a stage has.
    pub fn count(&self, stage: Stage) -> usize
        ensures { result ≡ stage_count self.now stage }
    {
        let (start, end) = match stage {
            Stage::Crossings => (0, self.turns),
            Stage::Turns => (self.turns, self.claims),
            Stage::Claims => (self.claims, self.events.len()),
        };
        end.saturating_sub(start)
    }

    /// The numbers of those events of a stage that may begin at the node join a list, if it is a node of the part's kind. The
    /// only error is out of memory.
    pub fn add_ready<T: TokenKind>(
        &self,
        node: &NodeOf<T>,
        stage: Stage,
        ready: &mut Vec<usize>,
    ) -> Result<(), NoMemory>
        ensures listed { IsOfKind self.now node.now →
            OnOk result (ready.new.items ≡ ready.old.items ++ ready_numbers T.kind node.now self.now stage) }
    {
        match node {
            NodeOf::Switch(_) => self.add_at_switch(node, stage, ready),
            NodeOf::Terminal(terminal) => self.add_at_terminal(terminal, stage, ready),
        }
    }

    /// The same of a node that is a switch.
    fn add_at_switch<T: TokenKind>(
        &self,
        node: &NodeOf<T>,
        stage: Stage,
        ready: &mut Vec<usize>,
    ) -> Result<(), NoMemory>
        requires { is_switch node.now ≡ true }
        ensures listed { IsOfKind self.now node.now →
            OnOk result (ready.new.items ≡ ready.old.items ++ ready_numbers T.kind node.now self.now stage) }
    {
        match stage {
            Stage::Crossings => {
                self.add_links(node.ready_links(PortPart::Credit), 0, ready)?;
                self.add_links(node.ready_links(PortPart::Cross), self.turns / 2, ready)
            }
            Stage::Turns => self.add_links(node.ready_links(PortPart::Turn), self.turns, ready),
            Stage::Claims => add_claims(node, self.claims, ready),
        }
    }

    /// The same of a terminal.
    fn add_at_terminal<T: TokenKind>(
        &self,
        terminal: &TerminalOf<T>,
        stage: Stage,
        ready: &mut Vec<usize>,
    ) -> Result<(), NoMemory>
        ensures listed { IsOfKind self.now (node.Terminal terminal.now) →
            OnOk result (ready.new.items ≡ ready.old.items ++ ready_numbers T.kind (node.Terminal terminal.now) self.now stage) }
    {
        match stage {
            Stage::Crossings if self.turns > 0 => {
                add_if(ready, 0, terminal.can_credit_out())?;
                add_if(ready, 1, terminal.can_leave())
            }
            Stage::Turns => add_if(ready, self.turns, terminal.can_drain()),
            _ => Ok(()),
        }
    }

    /// The numbers of the events of a kind at those wired links that are in a set join a list; the first of them has this
    /// number.
    fn add_links(
        &self,
        links: LinkSet,
        first: usize,
        ready: &mut Vec<usize>,
    ) -> Result<(), NoMemory>
        requires { first ≤ 64 }
        ensures { OnOk result (ready.new.items ≡ ready.old.items ++ numbers_in (has_bit links) first (links_in self.now.wired)) }
    {
        if links.next(0, self.wired).is_none() {
            return Ok(());
        }
        let mut number = first;
        let mut from = 0;
        while let Some(link) = self.wired.next(from, self.wired) {
            add_if(ready, number, links.has(link))?;
            number += 1;
            from = link + 1;
        }
        Ok(())
    }
}

/// A number joins a list, where this is so. The only error is out of memory.
#[inline(always)]
fn add_if(ready: &mut Vec<usize>, number: usize, is_so: bool) -> Result<(), NoMemory>
    ensures { OnOk result (ready.new.items ≡ ready.old.items ++ numbers_in (λ b. b) number (is_so ∷ [])) }
{
    if is_so {
        ready.push(number)?;
    }
    Ok(())
}

/// Whether an event crosses no wire.
fn is_at_home(event: &Event) -> bool
    ensures { result ≡ is_at_home event.now }
{
    !matches!(event, Event::Credit(_) | Event::Cross(_))
}

/// Whether an event is a claim.
fn is_claim(event: &Event) -> bool
    ensures { result ≡ is_claim event.now }
{
    matches!(event, Event::Claim { .. })
}

/// How many events of a part come before all that cross no wire.
#[tactic(auto, using(crate::proofs::PartNumbers::first_here, crate::proofs::PartNumbers::none_there))]
fn count_crossings(events: &[Event]) -> usize
    ensures { result ≡ position_or_len is_at_home events.now }
{
    for (number, event) in events.iter().enumerate() {
        if is_at_home(event) {
            return number;
        }
    }
    events.len()
}

/// How many events of a part come before the claims.
#[tactic(auto, using(crate::proofs::PartNumbers::first_here, crate::proofs::PartNumbers::none_there))]
fn count_before_claims(events: &[Event]) -> usize
    ensures { result ≡ position_or_len is_claim events.now }
{
    for (number, event) in events.iter().enumerate() {
        if is_claim(event) {
            return number;
        }
    }
    events.len()
}

/// The numbers of the claims that a switch is ready for join a list; the first claim has this number. A switch has over a
/// thousand, and is seldom ready for any, so they are found by its inputs that want an output. A claim is the same of each
/// switch, whatever its number. The only error is out of memory.
fn add_claims<T: TokenKind>(
    node: &NodeOf<T>,
    first: usize,
    ready: &mut Vec<usize>,
) -> Result<(), NoMemory>
    requires { first ≤ 96 }
    ensures { (s : ℕ) → OnOk result
        (ready.new.items ≡ ready.old.items ++ numbers_in (may_begin T.kind node.now) first (switch_claims s)) }
{
    let mut from = 0;
    while let Some(input) = node.next_wanting(from) {
        add_claims_of(node, input, first + input * LINKS, ready)?;
        from = input + 1;
    }
    Ok(())
}

/// The same of the claims of an input.
fn add_claims_of<T: TokenKind>(
    node: &NodeOf<T>,
    input: usize,
    first: usize,
    ready: &mut Vec<usize>,
) -> Result<(), NoMemory>
    requires { first ≤ 2048 }
    ensures { (s : ℕ) → OnOk result
        (ready.new.items ≡ ready.old.items ++ numbers_in (may_begin T.kind node.now) first (claims_of s input)) }
{
    let mut from = 0;
    while let Some(output) = node.next_claim(input, from) {
        ready.push(first + output)?;
        from = output + 1;
    }
    Ok(())
}
