//! Where an engine's nodes begin a run.
ghost use Rattle.std.specs.Prelude.{All, map, ◌≡◌};
ghost use Rattle.{c104_node.specs.{Places.states, Quiet.IsQuietNode, Starts.start_node}, c104_run.specs.RecordedNets.begun_told};
ghost use Rattle.c104_run.specs.RecordedNets.{place_told};

use super::Engine;
use crate::recorded_place::RecordedPlace;
use c104_token::TokenKind;

impl<T: TokenKind, P: RecordedPlace<T>> Engine<T, P> {
    /// The nodes, which are quiet, start a run: the tickets are counted from 0.
    pub fn begin(&mut self)
        requires { All IsQuietNode (states (map P.shown self.old.places)) }
        ensures plan { self.new.plan ≡ self.old.plan }
        ensures begun { map (place_told P.shown P.begun_at) self.new.places
            ≡ map begun_told (map (place_told P.shown P.begun_at) self.old.places) }
        ensures stand { map start_node (map P.begun_at self.new.places) ≡ states (map P.shown self.new.places) }
        ensures count { self.new.count ≡ 0 }
    {
        begin_all(self.places.as_mut_slice());
        self.count = 0;
        self.live.fill();
    }
}

/// All of these nodes, which are quiet, start a run.
fn begin_all<T: TokenKind, P: RecordedPlace<T>>(places: &mut [P])
    requires { All IsQuietNode (states (map P.shown places.old)) }
    ensures begun { map (place_told P.shown P.begun_at) places.new
        ≡ map begun_told (map (place_told P.shown P.begun_at) places.old) }
    ensures stand { map start_node (map P.begun_at places.new) ≡ states (map P.shown places.new) }
{
    for place in places.iter_mut() {
        place.begin();
    }
}
