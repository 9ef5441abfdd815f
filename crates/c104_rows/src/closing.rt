//! The end of a run: the packets whose ends have yet to cross a wire.
ghost use Rattle.std.specs.Prelude.{◌≡◌, OnOk};
ghost use Rattle.c104_rows.specs.Closing.{closed_all};

use crate::holders::packet_out;
use crate::timelines::Timeline;
use c104_run::TracedNet;
use c104_token::NoMemory;

impl Timeline {
    /// The run is at its end, and this is its network, in which the packets are found whose ends have yet to cross. The only
    /// error is out of memory.
    #[tactic(auto, using(crate::proofs::NumberSteps::none_yet, crate::proofs::NumberSteps::one_more))]
    pub fn close_all(&mut self, net: &TracedNet) -> Result<(), NoMemory>
        ensures { OnOk result (self.new ≡ closed_all net.now self.old) }
    {
        let count = self.lanes().len();
        for place in 0..count {
            let packet = packet_out(net, self.port_at(place));
            self.close(place, packet)?;
        }
        Ok(())
    }
}
