//! What a network comes to that is taken apart.
ghost use Rattle.std.specs.Prelude.{◌≡◌, ◌≤◌};
ghost use Rattle.{c104_plan.specs.Plans.IsPlan, c104_run.specs.{NetParts.AreParts, NodeRuns.TellRun}};

use crate::wires::Wires;
use c104_node::Node;
use c104_plan::Plan;
use std::marker::Model;

/// The parts of a network: its plan with its wires, its nodes, and how many events were done. In contracts they keep
/// what the network kept.
///
/// They can't be dropped, since switches hold claims: `retire` disposes of them.
pub struct NetParts {
    wires: Wires,
    // The switches in order, and then the terminals.
    nodes: Vec<Node>,
    count: u64,
}

impl Model for NetParts {
    ghost use Rattle.c104_run.specs.NetParts.{AreParts, Parts};

    ghost Value = { Parts };

    ghost view = { λ p. record { plan = p.wires; nodes = p.nodes.items; count = p.count } };

    ghost invariant = { λ p. AreParts (record { plan = p.wires; nodes = p.nodes.items; count = p.count }) };
}

impl NetParts {
    /// The parts of a network.
    pub(crate) fn new(wires: Wires, nodes: Vec<Node>, count: u64) -> Self
        requires { AreParts (record { plan = wires; nodes = nodes.items; count = count }) }
        ensures { result ≡ record { plan = wires; nodes = nodes.items; count = count } }
    {
        NetParts {
            wires,
            nodes,
            count,
        }
    }

    /// The plan.
    pub fn plan(&self) -> &Plan
        ensures plan { result.now ≡ self.now.plan }
        ensures kept { IsPlan self.now.plan }
    {
        self.wires.plan()
    }

    /// The nodes: the switches in order, and then the terminals.
    pub fn nodes(&self) -> &[Node]
        ensures nodes { result.now ≡ self.now.nodes }
        ensures told { AreParts self.now }
        ensures run { TellRun self.now.plan result.now self.now.count }
    {
        // The proof reads the rest of the parts by these names.
        let _plan = self.wires.plan();
        let _count = self.count;
        self.nodes.as_slice()
    }

    /// How many events were done: at most 320 times the most entries of a node.
    pub fn count(&self) -> u64
        ensures count { result ≡ self.now.count }
        ensures few { result ≤ 335544320 }
    {
        // The proof reads here what every plan keeps, and the nodes by their name.
        let _plan = self.wires.plan();
        let _nodes = self.nodes.as_slice();
        self.count
    }

    /// The wires, the nodes and how many events were done.
    pub fn into_parts(self) -> (Wires, Vec<Node>, u64)
        ensures wires { result.0 ≡ self.plan }
        ensures nodes { result.1.items ≡ self.nodes }
        ensures count { result.2 ≡ self.count }
    {
        let NetParts {
            wires,
            nodes,
            count,
        } = self;
        (wires, nodes, count)
    }

    /// Disposes of the parts.
    pub fn retire(self) {
        let NetParts {
            wires: _,
            mut nodes,
            count: _,
        } = self;
        while let Some(node) = nodes.pop() {
            node.retire();
        }
        nodes.destroy_empty();
    }
}
