//! The theorem that a network without a cycle of channel dependencies has no deadlock, of a network as it stands
//! and of a finished run.
ghost use Rattle.std.specs.Prelude.{All};
ghost use Rattle.{c104_deadlock.specs.{DeadlockFreedom.{EndsWithoutDeadlock, IsFreeOfDeadlock}, FairWaits.FairWaits}, c104_node.specs.Records.IsRecorded};
ghost use Rattle.c104_node.specs.{Records.{NodeRecord, NodeRoom}, TracedRecords.{IsFit, TracedRecord}};

use c104_node::{CountedNode, Node};
use c104_run::{Net, Run, TracedNet};

/// What the theorem says of a value.
pub trait NoDeadlock {
    /// What is so of it.
    ghost theorem: { Self → Type 0 };

    /// What is so of the value. This is a law: nothing is done.
    fn has_no_deadlock(&self)
        ensures { theorem self.now };
}

impl NoDeadlock for Net {
    ghost use Rattle.c104_deadlock.specs.{DeadlockFreedom.IsFreeOfDeadlock, FairWaits.FairWaits, BlockedInputs.BlocksAtCycles};

    ghost theorem = { IsFreeOfDeadlock };

    /// What is so of the network where its labels are accepted, its channels don't depend on one another in a cycle, its
    /// run began with the image's settings and with every switch started, nobody changed it since, and no terminal before
    /// whose packets random headers are put sent one that begins with such a header itself: it has no deadlock, and there
    /// is a number of rounds of which more, none of them refused, deliver each packet with a whole header that has an
    /// owner, whatever words their inputs are handed, and so do as many fair rounds, whatever turns they begin with.
    /// With channels that depend on one another in a cycle too: where it stands still, each input that holds tokens is blocked
    /// by others that do, and dependencies lead from it into a cycle. And of every network: in fair rounds at most 31
    /// packets of other inputs pass an input that waits. This is a law: it is called before the rounds that it is about. It
    /// changes nothing and takes no memory.
    fn has_no_deadlock(&self)
        ensures free { IsFreeOfDeadlock self.now }
        ensures waits { FairWaits self.now }
        ensures blocks { BlocksAtCycles self.now }
    {
        // The proof reads by these names what every plan, and every such network, keeps.
        let plan = self.plan();
        let _switches = plan.switches();
        read_records(self.places());
    }
}

impl NoDeadlock for TracedNet {
    ghost use Rattle.c104_deadlock.specs.{DeadlockFreedom.IsFreeOfDeadlock, FairWaits.FairWaits, BlockedInputs.BlocksAtCycles};

    ghost theorem = { IsFreeOfDeadlock };

    /// The same of a network whose tokens tell their packets, as the program runs it.
    fn has_no_deadlock(&self)
        ensures free { IsFreeOfDeadlock self.now }
        ensures waits { FairWaits self.now }
        ensures blocks { BlocksAtCycles self.now }
    {
        // The proof reads by these names what every plan, and every such network, keeps.
        let plan = self.plan();
        let _switches = plan.switches();
        read_counts(self.places());
    }
}

impl NoDeadlock for Run {
    ghost use Rattle.c104_deadlock.specs.DeadlockFreedom.{EndsWithoutDeadlock};

    ghost theorem = { EndsWithoutDeadlock };

    /// What is so of the run's end where the labels are accepted, the channels don't depend on one another in a cycle, the
    /// run began with the image's settings and with every switch started, nobody changed the network since, and no
    /// terminal before whose packets random headers are put sent one that begins with such a header itself: if it stood
    /// still there, it was quiet. With such a cycle too, each input that held tokens then was blocked by others that did, and
    /// dependencies led from it into one. This is a law: nothing is done.
    fn has_no_deadlock(&self)
        ensures { EndsWithoutDeadlock self.now }
    {
        // The proof reads here what every plan and every such run keeps.
        let plan = self.plan();
        let _switches = plan.switches();
        let _starts = self.starts();
    }
}

/// Each of these nodes keeps a run of its own. The proof reads it here.
fn read_records(nodes: &[Node])
    ensures { All (λ (n : NodeRecord × NodeRoom). IsRecorded n.0) nodes.now }
{
    for node in nodes {
        let _trace = node.trace();
    }
}

/// What each of these nodes did is within the limits of a packet. The proof reads it here.
fn read_counts(nodes: &[CountedNode])
    ensures { All (λ (n : TracedRecord). All IsFit n.trace) nodes.now }
{
    for node in nodes {
        let _arrived = node.arrived();
    }
}
