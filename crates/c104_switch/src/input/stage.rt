//! What an input keeps of its phase.
ghost use Rattle.std.specs.Prelude.{◌≡◌, None};
ghost use Rattle.c104_switch.specs.Stages.{stage_output};

use c104_crossbar::Claim;
use std::mem;

/// Where an input is with its packet. While the packet streams this is the claim of the output, and
/// nothing else says which output that is. The tokens of a header are kept beside it.
pub enum Stage {
    /// It waits for a packet.
    Fresh,
    /// It reads a header.
    Head,
    /// It wants an output of this link's group for the header.
    Want(u8),
    /// It streams the packet to the claimed output.
    Stream(Claim),
    /// It drops the packet.
    Sinking,
}

impl Stage {
    /// The claim that the stage is, if it is one.
    pub fn into_claim(self) -> Option<Claim>
        ensures { result ≡ stage_output self }
    {
        match self {
            Stage::Stream(claim) => Some(claim),
            Stage::Fresh | Stage::Head | Stage::Want(_) | Stage::Sinking => None,
        }
    }

    /// Puts another stage in place of one that is no claim.
    pub fn set(&mut self, stage: Stage)
        requires { stage_output self.old ≡ None }
        ensures { self.new ≡ stage }
    {
        match mem::replace(self, stage) {
            Stage::Fresh | Stage::Head | Stage::Want(_) | Stage::Sinking => (),
            Stage::Stream(_claim) => unreachable!(),
        }
    }
}
