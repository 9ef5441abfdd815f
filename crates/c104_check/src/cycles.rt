//! Cycles of channel dependencies: inputs each of which may have to wait for the next, and the last for the first.
ghost use Rattle.std.specs.Prelude.{IfOk, MatchOption, false, length, position, true, ℕ, ◌*◌, ◌+◌, ◌<◌, ◌≡◌, ◌≤◌};
ghost use Rattle.c104_check.specs.{ChannelDependencies.{AreByLabels, AreNeverBoth}, Cycles.{AllLeadToRanked, ArePartialRanks}};
ghost use Rattle.c104_check.specs.Cycles.{AreRanksOrCycle, IsDependencyOf, IsRankingPass, LeadInside, LeadsFirst, LeadsToUnranked};
ghost use Rattle.c104_check.specs.{Dependencies.Dependency as TheDependency, FirstCycles.{HasOneCycle, IsFirstFound}, Ranks.rank_at};
ghost use Rattle.{c104_check.specs.{Ranks.rank_in, Routes.{IsAccepted, routes_of}, Walks.is_port}, c104_plan.specs.PlanImage.Fits};

use crate::dependencies::Dependency;
use crate::ports::SwitchPort;
use crate::routes::Routes;
use c104_plan::{Image, Plan};
use c104_regs::LINKS;
use c104_token::{Items, NoMemory};
use std::alloc::Global;

/// An input, and a header by which it depends on the next: a packet with this header that came in here may have to
/// wait until what came in at the next input has gone on.
#[derive(Clone, Copy, Debug)]
pub struct ChannelDependency {
    /// The input.
    pub input: SwitchPort,
    /// The highest such header: a label of some terminal, or a random header that is put before packets.
    pub header: u32,
}

/// Ranks of the inputs of a network that fall along every dependency.
#[derive(Debug, Drop)]
pub struct Ranks {
    /// The ranks by place: those of the links of the first switch, then of the next. They are 1 or more, and at most
    /// as many as there are inputs, 32 a switch.
    pub by_place: Items<u32>,
}

impl Ranks {
    ghost use Rattle.std.specs.Prelude.{◌≡◌};
    ghost use Rattle.c104_check.specs.Ranks.{rank_in};

    /// The rank of an input. It is 0 past the last input.
    pub fn rank(&self, input: SwitchPort) -> u32
        ensures { result ≡ rank_in self.now.by_place input }
    {
        let ranks = self.by_place.as_slice();
        // Past these the place is past the last input too, and need not fit.
        if input.switch > ranks.len() / LINKS || input.link > ranks.len() {
            return 0;
        }
        let place = input.switch * LINKS + input.link;
        if place < ranks.len() { ranks[place] } else { 0 }
    }
}

/// Inputs that depend on one another in a cycle.
#[derive(Debug, Drop)]
pub struct Cycle {
    /// One or more, which differ. Each depends on the next, and the last on the first.
    pub dependencies: Items<ChannelDependency>,
}

/// Ranks of the inputs of a network, or a cycle of dependencies.
#[derive(Debug, Drop)]
pub enum RanksOrCycle {
    /// There is no cycle.
    Ranks(Ranks),
    /// There is one.
    Cycle(Cycle),
}

/// A cycle of dependencies in the accepted network of an image for a plan, or else ranks that fall along each
/// dependency. There are never both. It fails only when out of memory.
///
/// The cycle is always the same: from the first input from which dependencies lead into one it is come to, and gone
/// round, over the lowest link at each input over which one can be come to.
///
/// Packets go by labels, from the inputs of terminals on. Where random headers are put before packets at such an input,
/// they go in two phases: from there by a random header, and by labels from the inputs on that discard it. The
/// dependencies are those of both phases; and those by labels alone where no random headers are put before packets.
pub fn find_cycle(alloc: Global, plan: &Plan, image: &Image) -> Result<RanksOrCycle, NoMemory>
    requires fits { Fits image.now plan.now }
    requires accepted { IsAccepted (routes_of plan.now image.now) }
    ensures found { IfOk result (AreRanksOrCycle (routes_of plan.now image.now)) }
    ensures first { IfOk result (IsFirstFound (routes_of plan.now image.now)) }
    ensures one { IfOk result (λ _. HasOneCycle (routes_of plan.now image.now)) }
    ensures never_both { IfOk result (λ _. AreNeverBoth (routes_of plan.now image.now)) }
    ensures plain { IfOk result (λ _. AreByLabels (routes_of plan.now image.now)) }
{
    let routes = Routes::new(alloc, plan, image)?;
    let table = routes.dependencies(alloc)?;
    let places = routes.switch_count() * LINKS;
    let ranks = rank_inputs(alloc, table.as_slice(), places)?;
    match first_unranked(ranks.as_slice()) {
        None => Ok(RanksOrCycle::Ranks(Ranks {
            by_place: Items::new(ranks),
        })),
        Some(place) => {
            let start = SwitchPort::at(place);
            let cycle = routes.follow(alloc, table.as_slice(), ranks.as_slice(), start)?;
            Ok(RanksOrCycle::Cycle(Cycle {
                dependencies: Items::new(cycle),
            }))
        }
    }
}

impl<'a> Routes<'a> {
    ghost use Rattle.std.specs.Prelude.{IfOk, length, ℕ, ◌*◌, ◌<◌, ◌≡◌};
    ghost use Rattle.c104_check.specs.{Checks.IsFirstLink, Cycles.{AreAllRanked, LeadsToUnranked}, Dependencies.AreDependencies};
    ghost use Rattle.c104_check.specs.{Dependencies.Dependency as TheDependency, FirstCycles.{IsFirstCycle, LeadsToCycle}, Ranks.rank_at};
    ghost use Rattle.c104_check.specs.{Ranks.rank_in, Trails.{IsInput, IsNetwork, routes_in}};

    /// The cycle to which dependencies between inputs without ranks lead from this one.
    fn follow(
        &self,
        alloc: Global,
        table: &[Option<Dependency>],
        ranks: &[u32],
        start: SwitchPort,
    ) -> Result<Vec<ChannelDependency>, NoMemory>
        requires network { IsNetwork (routes_in self.now) }
        requires dependencies { AreDependencies (routes_in self.now) table.now }
        requires room { length table.now ≡ length ranks.now * 32 }
        requires places { length ranks.now ≡ length (routes_in self.now).settings * 32 }
        requires stuck { (k : ℕ) → k < length ranks.now → rank_at ranks.now k ≡ 0
            → (d : TheDependency) × LeadsToUnranked table.now ranks.now k d }
        requires ranked { AreAllRanked (routes_in self.now) table.now ranks.now }
        requires input { IsInput (length (routes_in self.now).settings) start }
        requires unranked { rank_in ranks.now start ≡ 0 }
        requires first { IsFirstLink (LeadsToCycle (routes_in self.now)) start }
        ensures { IfOk result (λ cycle. IsFirstCycle (routes_in self.now) cycle.items) }
    {
        let mut chain: Vec<ChannelDependency> = Vec::new(alloc);
        let mut at = start;
        loop {
            if let Some(first) = find_input(chain.as_slice(), at) {
                let cycle = chain.as_slice().split_at(first).1;
                return Ok(Vec::from_slice(alloc, cycle)?);
            }
            let Some(dependency) = unranked_next(table, ranks, at.place()) else {
                unreachable!()
            };
            let header = dependency.header;
            chain.push(ChannelDependency { input: at, header })?;
            at = dependency.next;
        }
    }
}

/// Where the dependency of an input is among others.
fn find_input(chain: &[ChannelDependency], at: SwitchPort) -> Option<usize>
    ensures { result ≡ position (λ dependency. is_port at dependency.input) chain.now }
{
    chain.iter().position(|dependency| at.switch == dependency.input.switch
        && at.link == dependency.input.link)
}

/// The first place without a rank.
fn first_unranked(ranks: &[u32]) -> Option<usize>
    ensures { MatchOption result ((k : ℕ) → k < length ranks.now → 0 < rank_at ranks.now k)
        (λ k. (k < length ranks.now) × (rank_at ranks.now k ≡ 0)
        × ((j : ℕ) → j < k → 0 < rank_at ranks.now j)) }
{
    for place in 0..ranks.len() {
        if ranks[place] == 0 {
            return Some(place);
        }
    }
    None
}

/// Ranks of this many inputs that fall along the dependencies of a table, of all inputs that lead to no cycle.
fn rank_inputs(
    alloc: Global,
    table: &[Option<Dependency>],
    places: usize,
) -> Result<Vec<u32>, NoMemory>
    requires room { length table.now ≡ places * 32 }
    requires small { places ≤ 2048 }
    requires inside { LeadInside table.now places }
    ensures room { IfOk result (λ ranks. length ranks.items ≡ places) }
    ensures part { IfOk result (λ ranks. ArePartialRanks table.now ranks.items) }
    ensures stuck { IfOk result (λ ranks. (k : ℕ) → k < places → rank_at ranks.items k ≡ 0
        → (d : TheDependency) × LeadsToUnranked table.now ranks.items k d) }
{
    let mut ranks = vec![in alloc; 0u32; places]?;
    rank_all(table, &mut ranks);
    Ok(ranks)
}

/// Ranks inputs as long as there are some that depend on ranked ones alone.
fn rank_all(table: &[Option<Dependency>], ranks: &mut [u32])
    requires room { length table.now ≡ length ranks.old * 32 }
    requires small { length ranks.old ≤ 2048 }
    requires inside { LeadInside table.now (length ranks.old) }
    requires part { ArePartialRanks table.now ranks.old }
    ensures room { length ranks.new ≡ length ranks.old }
    ensures part { ArePartialRanks table.now ranks.new }
    ensures stuck { (k : ℕ) → k < length ranks.old → rank_at ranks.new k ≡ 0
        → (d : TheDependency) × LeadsToUnranked table.now ranks.new k d }
{
    loop {
        if !rank_more(table, ranks) {
            return;
        }
    }
}

/// The highest rank of the inputs on which the input at a place depends.
fn highest(table: &[Option<Dependency>], ranks: &[u32], place: usize) -> u32
    requires place { place < length ranks.now }
    requires room { length table.now ≡ length ranks.now * 32 }
    requires small { length ranks.now ≤ 2048 }
    requires inside { LeadInside table.now (length ranks.now) }
    ensures above { (d : TheDependency) → IsDependencyOf table.now place d → rank_in ranks.now d.next ≤ result }
    ensures least { (limit : ℕ) → ((k : ℕ) → rank_at ranks.now k ≤ limit) → result ≤ limit }
{
    let mut most = 0u32;
    for link in 0..LINKS {
        if let Some(dependency) = table[place * LINKS + link] {
            let rank = ranks[dependency.next.place()];
            if rank > most {
                most = rank;
            }
        }
    }
    most
}

/// The first dependency of the input at a place that leads to an input without a rank.
fn unranked_next(table: &[Option<Dependency>], ranks: &[u32], place: usize) -> Option<Dependency>
    requires place { place < length ranks.now }
    requires room { length table.now ≡ length ranks.now * 32 }
    requires small { length ranks.now ≤ 2048 }
    requires inside { LeadInside table.now (length ranks.now) }
    ensures { MatchOption result (AllLeadToRanked table.now ranks.now place) (LeadsFirst table.now ranks.now place) }
{
    for link in 0..LINKS {
        if let Some(dependency) = table[place * LINKS + link] {
            if ranks[dependency.next.place()] == 0 {
                return Some(dependency);
            }
        }
    }
    None
}

/// Ranks the inputs that depend on ranked ones alone; and tells whether there were any.
fn rank_more(table: &[Option<Dependency>], ranks: &mut [u32]) -> bool
    requires room { length table.now ≡ length ranks.old * 32 }
    requires small { length ranks.old ≤ 2048 }
    requires inside { LeadInside table.now (length ranks.old) }
    requires part { ArePartialRanks table.now ranks.old }
    ensures pass { IsRankingPass table.now ranks.old ranks.new result }
    ensures stuck { result ≡ false → (k : ℕ) → k < length ranks.old → rank_at ranks.old k ≡ 0
        → (d : TheDependency) × LeadsToUnranked table.now ranks.old k d }
{
    let mut more = false;
    for place in 0..ranks.len() {
        if ranks[place] == 0 {
            let found = rank_one(table, ranks, place);
            more = more | found;
        }
    }
    more
}

/// Ranks an input if it depends on ranked ones alone; and tells whether it does.
fn rank_one(table: &[Option<Dependency>], ranks: &mut [u32], place: usize) -> bool
    requires place { place < length ranks.old }
    requires none { rank_at ranks.old place ≡ 0 }
    requires room { length table.now ≡ length ranks.old * 32 }
    requires small { length ranks.old ≤ 2048 }
    requires inside { LeadInside table.now (length ranks.old) }
    requires part { ArePartialRanks table.now ranks.old }
    ensures pass { IsRankingPass table.now ranks.old ranks.new result }
    ensures stuck { result ≡ false → (d : TheDependency) × LeadsToUnranked table.now ranks.old place d }
{
    let None = unranked_next(table, ranks, place) else {
        return false;
    };
    let most = highest(table, ranks, place);
    ranks[place] = most + 1;
    true
}
