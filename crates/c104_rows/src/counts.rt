//! What is counted of a run.
//!
//! `Counts` are told what happens, in order. What they make of each thing is one step, so that what is counted in the end is
//! what the definitions say of all that happened.
ghost use Rattle.std.specs.Prelude.{IfOk, OnErr, OnOk, [], if◌then◌else◌, length, map, replicate, slice_get, ◌*◌, ◌≡◌};
ghost use Rattle.{c104_plan.specs.declared.plans.Terminal.Terminal as TheTerminal, c104_regs.specs.declared.registers.TheConstants.LINKS};
ghost use Rattle.c104_rows.specs.Counts.{counts_arrived, counts_begun, counts_crossed, counts_cut, counts_found, counts_level};
ghost use Rattle.c104_rows.specs.Counts.{counts_noted, counts_passed, counts_seen, counts_sent, counts_taken, crossed_senders};
ghost use Rattle.c104_rows.specs.{Counts.{left_senders, new_counts}, Links.new_link, Rounds.moved_round};

use crate::links::{Crossing, LinkRow};
use crate::numbers::saturate_u32;
use crate::packets::{Arrival, PacketRow, Sender};
use crate::rounds::{Levels, RoundRow};
use crate::steps::{cross_link, cross_wire, cut_links, link_at};
use crate::tables::Wanted;
use c104_node::Origin;
use c104_plan::{Plan, Port, Terminal};
use c104_regs::LINKS;
use c104_token::NoMemory;
use std::alloc::Global;
use std::marker::Model;

/// What is counted of a run.
#[derive(Drop)]
pub struct Counts {
    wanted: Wanted,
    links: Vec<LinkRow>,
    wires: Vec<LinkRow>,
    senders: Vec<Sender>,
    rounds: Vec<RoundRow>,
    current: RoundRow,
    active: u32,
}

impl Model for Counts {
    ghost use Rattle.c104_rows.specs.Counts.{Counts as TheCounts};

    ghost Value = { TheCounts };

    ghost view = { λ s. record {
      wanted = s.wanted;
      links = s.links.items;
      wires = s.wires.items;
      senders = s.senders.items;
      rounds = s.rounds.items;
      current = s.current;
      active = s.active;
    } };
}

impl Counts {
    /// Nothing has happened yet on the network of a plan. Levels and rounds are counted as far as they are wanted. The only
    /// error is out of memory.
    pub fn new(alloc: Global, plan: &Plan, wanted: Wanted) -> Result<Self, NoMemory>
        ensures { IfOk result (λ counts. counts ≡ new_counts plan.now wanted) }
    {
        let tables = Tables::of(alloc, plan)?;
        Ok(Counts {
            wanted,
            links: tables.links,
            wires: tables.wires,
            senders: tables.senders,
            rounds: Vec::new(alloc),
            current: RoundRow::new(0, Levels::new()),
            active: 0,
        })
    }

    /// The number of the round that began last.
    pub fn round(&self) -> u32
        ensures { result ≡ self.now.current.round }
    {
        self.current.round
    }

    /// What is wanted.
    pub(crate) fn wanted(&self) -> Wanted
        ensures { result ≡ self.now.wanted }
    {
        self.wanted
    }

    /// The links of the switches, 32 of each.
    pub(crate) fn links(&self) -> &[LinkRow]
        ensures { result.now ≡ self.now.links }
    {
        self.links.as_slice()
    }

    /// The links of the terminals.
    pub(crate) fn wires(&self) -> &[LinkRow]
        ensures { result.now ≡ self.now.wires }
    {
        self.wires.as_slice()
    }

    /// The packets of each terminal.
    pub fn senders(&self) -> &[Sender]
        ensures { result.now ≡ self.now.senders }
    {
        self.senders.as_slice()
    }

    /// The rounds that are over, if they are wanted.
    pub(crate) fn rounds(&self) -> &[RoundRow]
        ensures { result.now ≡ self.now.rounds }
    {
        self.rounds.as_slice()
    }

    /// The round that began last.
    pub(crate) fn current(&self) -> RoundRow
        ensures { result ≡ self.now.current }
    {
        self.current
    }

    /// The last round in which something was done.
    pub fn active(&self) -> u32
        ensures { result ≡ self.now.active }
    {
        self.active
    }

    /// A terminal sends a packet of this many bytes. The only error is out of memory, and then nothing has changed.
    pub fn send(&mut self, terminal: usize, bytes: u64) -> Result<(), NoMemory>
        ensures sent { OnOk result (self.new ≡ counts_sent self.old terminal bytes) }
        ensures kept { OnErr result (self.new ≡ self.old) }
    {
        let packet = PacketRow::new(saturate_u32(bytes), self.current.round);
        match self.senders.get_mut(terminal) {
            Some(sender) => sender.send(packet),
            None => Ok(()),
        }
    }

    /// The packet that a terminal sent last is taken back.
    pub fn take_back(&mut self, terminal: usize)
        ensures { self.new ≡ counts_taken self.old terminal }
    {
        if let Some(sender) = self.senders.get_mut(terminal) {
            sender.take_back();
        }
    }

    /// A token crosses the wire at a port, which ends this packet, or none.
    pub fn cross(&mut self, port: Port, ended: Option<Origin>)
        ensures { self.new ≡ counts_crossed self.old port ended }
    {
        let crossing = Crossing {
            round: self.current.round,
            ends: ended.is_some(),
        };
        match port {
            Port::Switch(switch, link) => {
                let idle = cross_link(&mut self.links, switch, link, crossing);
                self.move_on(idle, ended);
            }
            Port::Terminal(terminal) => {
                self.leave(terminal);
                let idle = cross_wire(&mut self.wires, terminal, crossing);
                self.move_on(idle, ended);
            }
        }
    }

    /// A token leaves a terminal, of the packet behind those that have left it whole.
    fn leave(&mut self, terminal: usize)
        ensures { self.new ≡ record self.old {
          senders =
              left_senders self.old.senders terminal self.old.current.round (slice_get self.old.wires terminal);
        } }
    {
        let Some(wire) = self.wires.get(terminal).copied() else {
            return;
        };
        if let Some(sender) = self.senders.get_mut(terminal) {
            sender.leave(wire.packets as usize, self.current.round);
        }
    }

    /// A token has crossed a wire, and with it a packet, if one ends.
    fn move_on(&mut self, idle: u64, ended: Option<Origin>)
        ensures { self.new ≡ record self.old {
          senders = crossed_senders self.old.senders idle ended;
          current = moved_round self.old.current;
          active = self.old.current.round;
        } }
    {
        self.active = self.current.round;
        self.current = self.current.moved();
        let Some(packet) = ended else {
            return;
        };
        if let Some(sender) = self.senders.get_mut(packet.terminal) {
            sender.cross(packet.number, idle);
        }
    }

    /// A token arrives at a terminal, which ends this packet, or none.
    pub fn arrive(&mut self, terminal: usize, ended: Option<Origin>)
        ensures { self.new ≡ counts_arrived self.old terminal ended }
    {
        let arrival = Arrival {
            terminal: saturate_u32(terminal as u64),
            round: self.current.round,
        };
        self.active = self.current.round;
        self.current = self.current.arrived();
        let Some(packet) = ended else {
            return;
        };
        if let Some(sender) = self.senders.get_mut(packet.terminal) {
            sender.arrive(packet.number, arrival);
        }
    }

    /// A switch throws away what it holds: the packets that held its links hold them no more.
    pub fn cut(&mut self, switch: usize)
        ensures { self.new ≡ counts_cut self.old switch }
    {
        cut_links(&mut self.links, switch, self.current.round);
    }

    /// A round begins. The only error is out of memory, and then nothing has changed.
    pub fn begin_round(&mut self) -> Result<(), NoMemory>
        ensures begun { OnOk result (self.new ≡ counts_begun self.old) }
        ensures kept { OnErr result (self.new ≡ self.old) }
    {
        let current = self.current;
        if self.wanted.rounds {
            self.rounds.push(current)?;
        }
        self.current = RoundRow::new(current.round.saturating_add(1), current.levels);
        Ok(())
    }

    /// Something was done in the round that began last, or not.
    pub fn note_done(&mut self, done: bool)
        ensures { self.new ≡ counts_noted self.old done }
    {
        if done {
            self.active = self.current.round;
        }
    }

    /// This is there before the next round begins, or at the end of all.
    pub(crate) fn see_levels(&mut self, levels: Levels)
        ensures { self.new ≡ counts_seen self.old levels }
    {
        self.current = self.current.ended(levels);
    }

    /// As many rounds pass in which nothing is done.
    pub fn pass_rounds(&mut self, times: u32)
        ensures { self.new ≡ counts_passed self.old times }
    {
        self.current = self.current.later(times);
    }

    /// This many tokens wait to cross at a port, before the next round begins or at the end of all.
    pub(crate) fn see_level(&mut self, port: Port, level: u64)
        ensures { self.new ≡ counts_level self.old port level }
    {
        match port {
            Port::Switch(switch, link) => {
                if let Some(place) = link_at(self.links.len(), switch, link)
                    && let Some(row) = self.links.get_mut(place)
                {
                    *row = row.with_level(level);
                }
            }
            Port::Terminal(terminal) => {
                if let Some(row) = self.wires.get_mut(terminal) {
                    *row = row.with_level(level);
                }
            }
        }
    }

    /// The terminator of a packet is in the network, or waits at its sender.
    pub fn find(&mut self, packet: Origin)
        ensures { self.new ≡ counts_found self.old packet }
    {
        if let Some(sender) = self.senders.get_mut(packet.terminal) {
            sender.find(packet.number);
        }
    }
}

/// What is counted of terminals.
#[derive(Drop)]
struct Tables {
    links: Vec<LinkRow>,
    wires: Vec<LinkRow>,
    senders: Vec<Sender>,
}

impl Tables {
    /// Nothing is counted yet on the network of a plan. The only error is out of memory.
    fn of(alloc: Global, plan: &Plan) -> Result<Self, NoMemory>
        ensures links { IfOk result (λ tables. tables.links.items ≡ replicate (length plan.now.switches * LINKS) new_link) }
        ensures wires { IfOk result (λ tables. tables.wires.items ≡ replicate (length plan.now.terminals) new_link) }
        ensures senders { IfOk result (λ tables. tables.senders.items ≡ map (λ (t : TheTerminal). []) plan.now.terminals) }
    {
        let links = vec![in alloc; LinkRow::new(); plan.switches().len() * LINKS]?;
        let wires = vec![in alloc; LinkRow::new(); plan.terminals().len()]?;
        let senders = new_senders(alloc, plan.terminals())?;
        Ok(Tables {
            links,
            wires,
            senders,
        })
    }
}

/// These terminals have sent nothing. The only error is out of memory.
fn new_senders(alloc: Global, terminals: &[Terminal]) -> Result<Vec<Sender>, NoMemory>
    ensures { IfOk result (λ senders. senders.items ≡ map (λ (t : TheTerminal). []) terminals.now) }
{
    let mut senders = Vec::new(alloc);
    for _terminal in terminals {
        senders.push(Sender::new(alloc))?;
    }
    Ok(senders)
}
