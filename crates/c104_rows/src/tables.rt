//! The tables of a run, and what of it is kept for them.
ghost use Rattle.std.specs.Prelude.{◌≡◌};
ghost use Rattle.c104_rows.specs.Tables.{wanted_of, wanted_with};

/// A table of a run.
#[derive(Clone, Copy)]
pub enum Table {
    /// The packets that were sent.
    Packets,
    /// What is counted of the links that have wires.
    Links,
    /// What is counted of the rounds.
    Rounds,
    /// How long the run was, and how it ended.
    Run,
    /// The rounds in which packets crossed the wires, and held them.
    Holds,
    /// Which packets hold which links, and where tokens wait.
    Ways,
    /// Which outputs inputs want.
    Wishes,
}

/// What is kept of a run, beside its packets and the tokens that cross its links.
#[derive(Clone, Copy)]
pub struct Wanted {
    /// How many tokens wait at each link, behind each round.
    pub links: bool,
    /// What is counted of each round.
    pub rounds: bool,
    /// The rounds in which packets cross the wires, and hold them.
    pub holds: bool,
    /// How the network stands at the end.
    pub states: bool,
    /// And how it stands behind each round.
    pub each: bool,
}

impl Wanted {
    /// Nothing but packets and tokens.
    const NOTHING: Wanted = Wanted {
        links: false,
        rounds: false,
        holds: false,
        states: false,
        each: false,
    };

    /// What is kept for these tables; with how the network stands behind each round, or at the end alone.
    pub fn of(tables: &[Table], each: bool) -> Self
        ensures { result ≡ wanted_of each tables.now }
    {
        let mut wanted = Wanted::NOTHING;
        for table in tables {
            wanted = wanted.with(*table, each);
        }
        wanted
    }

    /// The same with one more table.
    fn with(self, table: Table, each: bool) -> Self
        ensures { result ≡ wanted_with each self table }
    {
        match table {
            Table::Packets | Table::Run => self,
            Table::Links => Wanted {
                links: true,
                ..self
            },
            Table::Rounds => Wanted {
                rounds: true,
                ..self
            },
            Table::Holds => Wanted {
                holds: true,
                ..self
            },
            Table::Ways | Table::Wishes => Wanted {
                states: true,
                each,
                ..self
            },
        }
    }
}
