//! Whether a network stands still.
ghost use Rattle.std.specs.Prelude.{◌≡◌};
ghost use Rattle.c104_rows.specs.Standing.{is_still};

use c104_net::TracedNet;

/// Whether nothing can be done in a network but by control commands and packets: each event of a round would be answered NotReady.
pub fn stands_still(net: &TracedNet) -> bool
    ensures { result ≡ is_still net.now.network }
{
    net.stands_still()
}
