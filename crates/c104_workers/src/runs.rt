//! The run that was done on the nodes of a fabric.
ghost use Rattle.std.specs.Prelude.{IfOk};
ghost use Rattle.c104_workers.specs.{Audited.TellsSeats, OneRuns.IsWhole};

use crate::closing::Gathered;
use c104_run::Run;
use c104_token::NoMemory;
use std::alloc::Global;

impl Gathered {
    /// The run that was done: what the network had done when the fabric was made, and then the calls of the seats and nothing
    /// else, in the order of their tickets. All seats of the fabric were handed in, by their numbers, and through none of
    /// them anything was done on nodes that were lent. Nothing is looked for: that there is such a run is known of every
    /// fabric. The only error is out of memory.
    pub fn run(&self, alloc: Global) -> Result<Run, NoMemory>
        requires { IsWhole self.now }
        ensures { IfOk result (λ run. TellsSeats self.now run) }
    {
        // The proof reads here what the type and every plan keeps.
        let _switches = self.plan().switches();
        Run::of_nodes(alloc, self.plan(), self.nodes(), self.next)
    }
}
