//! What is counted of a link: of the wire at one port, and the tokens that cross from there.
//!
//! A link is held from a packet's first token there to its terminator, and a packet's idle rounds are summed over the
//! links that it has crossed whole.
ghost use Rattle.std.specs.Prelude.{◌≡◌, false};
ghost use Rattle.c104_rows.specs.Links.{busy_after, holder_after, is_in, link_after, link_cut, link_idle};
ghost use Rattle.c104_rows.specs.Links.{link_level, link_span, longest_at, new_link, span};

/// A packet that holds a link: its first token has crossed there, and its terminator hasn't.
#[derive(Clone, Copy)]
pub struct Holder {
    /// The round of its first token.
    pub since: u32,
    /// In how many rounds a token of it has crossed.
    pub busy: u32,
}

/// What is counted of a link.
#[derive(Clone, Copy)]
pub struct LinkRow {
    /// How many tokens have crossed.
    pub tokens: u64,
    /// In how many rounds one did, what happens before the first round not counted.
    pub busy: u64,
    /// How many packets have crossed to their end.
    pub packets: u64,
    /// Over how many rounds one of these packets held the link at most, from its first token to its terminator.
    pub longest: u64,
    /// How many tokens waited to cross at most, where a round was over.
    pub waiting: u64,
    /// The round of the last token that crossed.
    pub last: Option<u32>,
    /// The packet that holds the link, if one does.
    pub holder: Option<Holder>,
}

/// A token that crosses: the round, and whether it ends a packet.
#[derive(Clone, Copy)]
pub struct Crossing {
    pub round: u32,
    pub ends: bool,
}

impl LinkRow {
    /// A link over which nothing has crossed.
    pub fn new() -> Self
        ensures { result ≡ new_link }
    {
        LinkRow {
            tokens: 0,
            busy: 0,
            packets: 0,
            longest: 0,
            waiting: 0,
            last: None,
            holder: None,
        }
    }

    /// The link after a token that crosses.
    pub fn after(self, crossing: Crossing) -> Self
        ensures { result ≡ link_after self crossing }
    {
        let round = crossing.round;
        let row = LinkRow {
            tokens: self.tokens.saturating_add(1),
            busy: self.busy_after(round),
            last: Some(round),
            ..self
        };
        if crossing.ends {
            LinkRow {
                packets: self.packets.saturating_add(1),
                longest: self.longest.max(self.span(round)),
                holder: None,
                ..row
            }
        } else {
            LinkRow {
                holder: Some(self.holder_after(round)),
                ..row
            }
        }
    }

    /// In how many rounds of those for which the packet held the link, whose token crosses in this round, nothing of it has
    /// crossed, if that is its last token.
    pub fn idle(self, round: u32) -> u64
        ensures { result ≡ link_idle self round }
    {
        let holder = self.holder_after(round);
        self.span(round).saturating_sub(u64::from(holder.busy))
    }

    /// Over how many rounds a packet held the link at most, where this is the last round. One that holds it counts too.
    pub(crate) fn longest_at(self, round: u32) -> u64
        ensures { result ≡ longest_at self round }
    {
        match self.holder {
            Some(holder) => self.longest.max(holder.span(round)),
            None => self.longest,
        }
    }

    /// The link that no packet holds from this round on. One that held it until now counts.
    pub fn cut(self, round: u32) -> Self
        ensures { result ≡ link_cut round self }
    {
        LinkRow {
            longest: self.longest_at(round),
            holder: None,
            ..self
        }
    }

    /// The link where this many tokens wait to cross where a round is over.
    pub fn with_level(self, level: u64) -> Self
        ensures { result ≡ link_level level self }
    {
        LinkRow {
            waiting: self.waiting.max(level),
            ..self
        }
    }

    /// Whether the last token that crossed did so in this round.
    fn is_in(self, round: u32) -> bool
        ensures { result ≡ is_in self.last round }
    {
        match self.last {
            Some(last) => last == round,
            None => false,
        }
    }

    /// In how many rounds a token has crossed, with one that does in this round. What happens before the first round isn't
    /// in any.
    fn busy_after(self, round: u32) -> u64
        ensures { result ≡ busy_after self round }
    {
        if self.is_in(round) || round == 0 {
            self.busy
        } else {
            self.busy.saturating_add(1)
        }
    }

    /// The packet whose token crosses in this round, with that token.
    fn holder_after(self, round: u32) -> Holder
        ensures { result ≡ holder_after self round }
    {
        let again = self.is_in(round);
        match self.holder {
            Some(holder) if again => holder,
            Some(holder) => Holder {
                since: holder.since,
                busy: holder.busy.saturating_add(1),
            },
            None => Holder {
                since: round,
                busy: 1,
            },
        }
    }

    /// Over how many rounds the packet has held the link whose token crosses in this round.
    fn span(self, round: u32) -> u64
        ensures { result ≡ link_span self round }
    {
        let holder = self.holder_after(round);
        holder.span(round)
    }
}

impl Holder {
    /// Over how many rounds the packet has held the link, up to this one and with it.
    fn span(self, round: u32) -> u64
        ensures { result ≡ span self round }
    {
        u64::from(round.saturating_sub(self.since)) + 1
    }
}
