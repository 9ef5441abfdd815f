//! Nodes by themselves: how they are made, what they do, and the room that is made for that.
use crate::calls::{PLAN, drop_run, packet, take_apart};
use crate::ground::{Ground, Suite, is_right_on};
use crate::growths::{Growing, Refusal, is_right};
use crate::outcomes::Outcome;
use c104_net::Net;
use c104_node::{Act, ActOf, Node, NodeOf, NodeStart, SentPacket, TaggedToken, tagged_origins};
use c104_token::{NoMemory, Packet, Token, TokenKind};
use std::alloc::Global;

/// The nodes of a network: the switches, and then the terminals.
pub fn nodes_of(net: Net) -> Vec<Node> {
    let (_wires, nodes, _count) = take_apart(net).into_parts();
    nodes
}

/// Retires nodes.
pub fn retire_all(mut nodes: Vec<Node>) {
    while let Some(node) = nodes.pop() {
        node.retire();
    }
    nodes.destroy_empty();
}

/// The node at a start is made.
#[derive(Drop)]
struct Making<'a>(&'a NodeStart);

impl Growing for Making<'_> {
    fn call(&self, alloc: Global, refusal: Refusal) -> Outcome {
        refusal.begin(alloc);
        let made: Result<NodeOf<Token>, NoMemory> = NodeOf::from_start(alloc, self.0);
        refusal.end(alloc);
        match made {
            Ok(node) => {
                let _terminal = node.retire();
                Outcome::Done
            }
            Err(fault) => Outcome::of_fault(&fault),
        }
    }
}

/// Nodes at the starts of a run.
#[derive(Drop)]
struct StartCalls;

impl Suite for StartCalls {
    fn is_right(&self, rt: &HostRuntime, ground: Ground<'_>) -> bool {
        let Some(net) = ground.net(rt.alloc()) else {
            return false;
        };
        let run = net.finish();
        let are_right = are_made(rt, run.starts());
        drop_run(run);
        are_right
    }
}

fn are_made(rt: &HostRuntime, starts: &[NodeStart]) -> bool {
    for start in starts {
        if !is_right(rt, "NodeOf::from_start", &Making(start)) {
            return false;
        }
    }
    true
}

/// For what room is made at a node.
#[derive(Clone, Copy)]
enum Room {
    /// A packet that is sent, and its entry.
    Packet,
    /// An entry alone.
    Entry,
}

/// Room is made at the terminal a, which a refused call leaves as it was. It fails where the packet is sent before there
/// is room for its entry.
#[derive(Drop)]
struct MakingRoom<'a>(Ground<'a>, Room);

impl Growing for MakingRoom<'_> {
    fn call(&self, alloc: Global, refusal: Refusal) -> Outcome {
        let Some(act) = sending(alloc) else {
            return Outcome::Wrong;
        };
        let Some(net) = self.0.net(alloc) else {
            return Outcome::Wrong;
        };
        let mut nodes = nodes_of(net);
        let found = roomed(alloc, refusal, &mut nodes, self.1, &act);
        retire_all(nodes);
        found
    }
}

/// The act that sends the packet of the first run.
fn sending(alloc: Global) -> Option<Act> {
    let packet = packet(alloc)?;
    let sent = SentPacket::copy_of(&packet).ok()?;
    Some(ActOf::Send(sent))
}

fn roomed(
    alloc: Global,
    refusal: Refusal,
    nodes: &mut Vec<Node>,
    room: Room,
    act: &Act,
) -> Outcome {
    match nodes.as_mut_slice() {
        [_, terminal, ..] => roomed_at(alloc, refusal, terminal, room, act),
        _ => Outcome::Wrong,
    }
}

fn roomed_at(alloc: Global, refusal: Refusal, node: &mut Node, room: Room, act: &Act) -> Outcome {
    refusal.begin(alloc);
    let result = match room {
        Room::Packet => node.room(act),
        Room::Entry => node.room_for_entry(),
    };
    refusal.end(alloc);
    Outcome::of(result).if_kept(has_done_nothing(node))
}

/// Whether a terminal has no entry, and nothing waits there.
fn has_done_nothing(node: &Node) -> bool {
    match node.terminal() {
        Some(terminal) => node.trace().is_empty() && terminal.waiting() == 0 && node.quiet(),
        None => false,
    }
}

/// Room at nodes.
#[derive(Drop)]
struct RoomCalls;

impl Suite for RoomCalls {
    fn is_right(&self, rt: &HostRuntime, ground: Ground<'_>) -> bool {
        is_right(rt, "Node::room", &MakingRoom(ground, Room::Packet))
            && is_right(rt, "Node::room_for_entry", &MakingRoom(ground, Room::Entry))
    }
}

/// A packet is copied, as an act has it.
#[derive(Drop)]
struct CopyingPacket<'a>(&'a Packet);

impl Growing for CopyingPacket<'_> {
    fn call(&self, alloc: Global, refusal: Refusal) -> Outcome {
        refusal.begin(alloc);
        let result = SentPacket::copy_of(self.0);
        refusal.end(alloc);
        Outcome::of(result)
    }
}

/// The origin of a packet is told by its end.
#[derive(Clone, Copy)]
struct Telling;

impl Growing for Telling {
    fn call(&self, alloc: Global, refusal: Refusal) -> Outcome {
        refusal.begin(alloc);
        let found = Outcome::of(tagged_origins(alloc, &[tagged_end()]));
        refusal.end(alloc);
        found
    }
}

fn tagged_end() -> TaggedToken {
    TaggedToken::sent(0, 0, 2, Token::Eop)
}

#[test]
fn nodes(rt: HostRuntime) {
    assert!(rt; is_right_on(&rt, PLAN, &StartCalls));
    assert!(rt; is_right_on(&rt, PLAN, &RoomCalls));
}

fn is_packet_copied(rt: &HostRuntime) -> bool {
    match packet(rt.alloc()) {
        Some(packet) => is_right(rt, "SentPacket::copy_of", &CopyingPacket(&packet)),
        None => false,
    }
}

#[test]
fn packets_of_nodes(rt: HostRuntime) {
    assert!(rt; is_packet_copied(&rt));
    assert!(rt; is_right(&rt, "tagged_origins", &Telling));
}
