ghost use Rattle.std.specs.Prelude.{◌≡◌, ◌<◌, false, true, []};
ghost use Rattle.c104_crossbar.specs.Groups.{has_bit};
ghost use Rattle.c104_crossbar.specs.Marks.{ArePartition, ClaimKeepsPartition, ReleaseKeepsPartition, all_free, crossbar_claim, is_free, crossbar_release};

use crate::LINKS;
use std::marker::Model;

/// The crossbar of a switch: for each of its 32 outputs, whether it is taken.
#[derive(Drop)]
pub struct Crossbar {
    // The bit of each output that is taken.
    taken: u32,
}

impl Model for Crossbar {
    ghost use Rattle.std.specs.Prelude.{Bool, List};
    ghost use Rattle.c104_crossbar.specs.Marks.{marks_of};

    ghost Value = { List Bool };

    ghost view = { λ crossbar. marks_of crossbar.taken };
}

/// The right to an output, until it is given back by [`Crossbar::release`].
///
/// It can't be dropped or copied.
#[must_use]
pub struct Claim {
    output: u8,
}

impl Model for Claim {
    ghost use Rattle.std.specs.Prelude.{ℕ, ◌<◌};
    ghost use Rattle.c104_crossbar.specs.declared.TheConstants.{LINKS};

    ghost Value = { ℕ };

    ghost view = { λ claim. claim.output };

    ghost invariant = { λ claim. claim.output < LINKS };
}

impl Crossbar {
    /// A crossbar whose outputs are all free.
    pub fn new() -> Self
        ensures marks { result ≡ all_free }
        ensures partition { ArePartition [] result }
    {
        Crossbar { taken: 0 }
    }

    /// Claims an output. The answer is `None`, and nothing changes, where the output is taken
    /// or its number is 32 or more.
    pub fn claim(&mut self, output: usize) -> Option<Claim>
        ensures claimed { (result, self.new) ≡ crossbar_claim self.old output }
        ensures partition { ClaimKeepsPartition self.old result self.new }
    {
        if !self.free(output) {
            return None;
        }
        self.taken |= 1u32 << output;
        Some(Claim {
            output: output as u8,
        })
    }

    /// Gives an output back: just that of the claim is free afterwards. This crossbar must count
    /// it as taken, which it does where it made the claim.
    // A claim doesn't say which crossbar made it. So this asks that the crossbar counts its output as taken; whoever has
    // several crossbars keeps their claims apart.
    pub fn release(&mut self, claim: Claim)
        requires { is_free self.old claim ≡ false }
        ensures released { self.new ≡ crossbar_release self.old claim }
        ensures partition { ReleaseKeepsPartition self.old claim self.new }
    {
        let Claim { output } = claim;
        self.taken &= !(1u32 << output);
    }

    /// Whether an output is free: false from 32 on.
    pub fn free(&self, output: usize) -> bool
        ensures free { result ≡ is_free self.now output }
        ensures below { result ≡ true → output < LINKS }
    {
        let taken = self.taken;
        if output >= LINKS {
            return false;
        }
        !has_bit(taken, output)
    }
}

impl Claim {
    /// The number of the claimed output, 0 to 31.
    pub fn output(&self) -> usize
        ensures value { result ≡ self.now }
        ensures below { result < LINKS }
    {
        self.output as usize
    }
}

/// Whether the bit of an output is set in a word.
fn has_bit(word: u32, output: usize) -> bool
    requires { output < LINKS }
    ensures { result ≡ has_bit word output }
{
    (word >> output) & 1 == 1
}
