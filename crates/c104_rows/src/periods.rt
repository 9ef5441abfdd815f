//! Rounds of a stretch, up to the last one that is shown.
ghost use Rattle.std.specs.Prelude.{◌≡◌};
ghost use Rattle.c104_rows.specs.Periods.{clipped, idle_in, is_in, moved_in};

use crate::lanes::Stretch;

/// Rounds from one to another.
#[derive(Clone, Copy)]
pub struct Period {
    /// The first.
    pub from: u32,
    /// The last.
    pub to: u32,
}

/// The rounds from one to another, up to the last one that is shown, if there are some.
fn clipped(last: u32, from: u32, to: u32) -> Option<Period>
    ensures { result ≡ clipped last from to }
{
    let to = to.min(last);
    if from <= to {
        Some(Period { from, to })
    } else {
        None
    }
}

impl Stretch {
    /// Whether any round of it is shown, or of those before in which the packet held the wire.
    pub(crate) fn is_in(self, last: u32) -> bool
        ensures { result ≡ is_in last self }
    {
        self.since <= last
    }

    /// Its rounds that are shown, if tokens crossed.
    pub(crate) fn moved(self, last: u32) -> Option<Period>
        ensures { result ≡ moved_in last self }
    {
        if self.moves {
            clipped(last, self.first, self.last)
        } else {
            None
        }
    }

    /// The rounds before it that are shown, in which the packet held the wire and nothing crossed; or its own, if nothing did.
    pub(crate) fn idle(self, last: u32) -> Option<Period>
        ensures { result ≡ idle_in last self }
    {
        if !self.moves {
            clipped(last, self.since, self.last)
        } else if self.since < self.first {
            clipped(last, self.since, self.first - 1)
        } else {
            None
        }
    }
}
