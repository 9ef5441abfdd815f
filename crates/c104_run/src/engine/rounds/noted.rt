//! What a round notes of the switches.
ghost use Rattle.std.specs.Prelude.{true, ℕ, ◌≡◌};
ghost use Rattle.c104_run.specs.LivePlaces.{is_live};

use crate::live_places::LivePlaces;

/// At which switches claims and grants may be done, as their last turns left them. The claims of a round and the grants of
/// the next walk these alone, since most switches have neither.
#[derive(Drop)]
pub struct Noted {
    /// Those where an input may claim an output.
    pub claiming: LivePlaces,
    /// Those that may grant at some link.
    pub granting: LivePlaces,
}

impl Noted {
    /// Where nothing is known of the switches.
    pub fn all() -> Self
        ensures { (k : ℕ) → is_live result.granting k ≡ true }
    {
        Noted {
            claiming: LivePlaces::all(),
            granting: LivePlaces::all(),
        }
    }

    /// Where no switch was noted so far.
    #[inline(always)]
    pub fn none() -> Self {
        Noted {
            claiming: LivePlaces::none(),
            granting: LivePlaces::none(),
        }
    }
}
