//! A network that is nobody else's, as a port for a worker.
use c104_event::{Event, EventFault};
use c104_net::Net;
use c104_node::Place;
use c104_switch::ReplyOf;
use c104_token::NoMemory;
use c104_turns::{NodePort, Part, PartPort, Stage, Worker};

/// A network whose nodes' parts a worker does. An event is done as by the network itself, so a worker does exactly the parts.
#[derive(Drop)]
pub struct NetPort<'a> {
    pub net: &'a mut Net,
    pub worker: Worker,
}

impl NodePort for NetPort<'_> {
    ghost use Rattle.c104_workers.specs.NetTurns.{PortAnswers, PortLists, port_count};

    ghost done = { λ p. port_count p };

    ghost lists = { λ p part stage numbers. PortLists p part stage numbers };

    ghost due = { λ p event answer after. PortAnswers p event answer after };

    fn count(&self) -> usize {
        self.net.count() as usize
    }

    fn list_ready(
        &self,
        part: &Part,
        stage: Stage,
        ready: &mut Vec<usize>,
    ) -> Result<(), NoMemory> {
        ready.clear();
        // The proof reads here what the network keeps.
        let _plan = self.net.told_plan();
        match self.net.node(part.node()) {
            Some(node) => part.add_ready(Place::node(node), stage, ready),
            None => Ok(()),
        }
    }

    fn apply(&mut self, event: &Event) -> Result<bool, EventFault> {
        let reply = self.net.apply(event)?;
        Ok(!matches!(reply, ReplyOf::NotReady))
    }
}

impl PartPort for NetPort<'_> {
    ghost use Rattle.c104_workers.specs.NetTurns.{DoesPart, port_count};

    ghost done = { λ p. port_count p };

    ghost due = { λ p part end after. DoesPart p part end after };

    fn count(&self) -> usize {
        self.net.count() as usize
    }

    fn begin(&self, _turn: u64) {}

    fn rest(&self) {}

    fn do_part(&mut self, part: &Part, ready: &mut Vec<usize>) -> Result<(), EventFault> {
        let worker = self.worker;
        worker.do_part(self, part, ready)
    }
}
