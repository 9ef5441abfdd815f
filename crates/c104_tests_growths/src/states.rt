//! What is kept of runs for tables.
use crate::calls::PLAN;
use crate::ground::{Ground, Suite, is_right_on};
use crate::growths::{Growing, Refusal, is_right};
use crate::outcomes::Outcome;
use crate::traced::net_after;
use c104_net::TracedNet;
use c104_rows::{Outcome as Ending, RunRecord, Seen, Table, Wanted, table_text};
use std::alloc::Global;

/// What is asked of what is kept.
#[derive(Clone, Copy)]
enum Call {
    New,
    Begin,
    Close,
    See,
    Text(Table),
}

/// All that can be kept, behind each round.
const ALL: Wanted = Wanted {
    links: true,
    rounds: true,
    holds: true,
    states: true,
    each: true,
};

/// Something is asked of what is kept of a run, which is at its end by then where a table is printed.
#[derive(Drop)]
struct Keeping<'a> {
    net: &'a TracedNet,
    call: Call,
}

impl Keeping<'_> {
    fn kept(&self, alloc: Global) -> Option<RunRecord> {
        let mut kept = RunRecord::new(alloc, self.net.plan(), ALL).ok()?;
        if let Call::Text(_) = self.call {
            kept.begin_round(self.net).ok()?;
            kept.close(self.net).ok()?;
        }
        Some(kept)
    }

    fn ask(&self, alloc: Global, kept: &mut RunRecord) -> Outcome {
        let ending = Ending {
            refused: 0,
            is_still: false,
        };
        match self.call {
            Call::New => Outcome::of(RunRecord::new(alloc, self.net.plan(), ALL)),
            Call::Begin => Outcome::of(kept.begin_round(self.net)),
            Call::Close => Outcome::of(kept.close(self.net)),
            Call::See => {
                let mut seen = Seen::new(alloc);
                Outcome::of(seen.see(self.net, 1))
            }
            Call::Text(table) => {
                Outcome::of(table_text(alloc, self.net.plan(), table, kept, ending))
            }
        }
    }
}

impl Growing for Keeping<'_> {
    fn call(&self, alloc: Global, refusal: Refusal) -> Outcome {
        let Some(mut kept) = self.kept(alloc) else {
            return Outcome::Wrong;
        };
        refusal.begin(alloc);
        let found = self.ask(alloc, &mut kept);
        refusal.end(alloc);
        found
    }
}

/// The first run's network, while its packet is under way.
#[derive(Drop)]
struct KeptCalls;

impl Suite for KeptCalls {
    fn is_right(&self, rt: &HostRuntime, ground: Ground<'_>) -> bool {
        let Some(net) = net_after(rt.alloc(), ground, 4) else {
            return false;
        };
        let mut is_right_so_far = true;
        for (name, call) in [
            ("RunRecord::new", Call::New),
            ("RunRecord::begin_round", Call::Begin),
            ("RunRecord::close", Call::Close),
            ("Seen::see", Call::See),
            ("table_text", Call::Text(Table::Packets)),
            ("table_text", Call::Text(Table::Links)),
            ("table_text", Call::Text(Table::Rounds)),
            ("table_text", Call::Text(Table::Run)),
            ("table_text", Call::Text(Table::Holds)),
            ("table_text", Call::Text(Table::Ways)),
            ("table_text", Call::Text(Table::Wishes)),
        ] {
            let keeping = Keeping { net: &net, call };
            is_right_so_far = is_right_so_far && is_right(rt, name, &keeping);
        }
        net.retire();
        is_right_so_far
    }
}

#[test]
fn kept_runs(rt: HostRuntime) {
    assert!(rt; is_right_on(&rt, PLAN, &KeptCalls));
}
