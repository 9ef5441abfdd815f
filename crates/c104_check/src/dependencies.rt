//! The dependencies of all inputs on one another, in a table.
ghost use Rattle.std.specs.Prelude.{◌≡◌};

use crate::ports::SwitchPort;
use crate::routes::Routes;
use crate::starts::Start;
use c104_plan::Port;
use c104_regs::LINKS;
use c104_token::NoMemory;
use std::alloc::Global;

/// What an input depends on over one of its switch's links.
#[derive(Clone, Copy, Debug)]
pub(crate) struct Dependency {
    /// The other input.
    pub(crate) next: SwitchPort,
    /// The highest header that may go on to there.
    pub(crate) header: u32,
}

impl<'a> Routes<'a> {
    ghost use Rattle.std.specs.{List.AllByRecursion, Prelude.{IfOk, OnOk, Some, false, length, ◌*◌, ◌+◌, ◌≡◌}};
    ghost use Rattle.c104_check.specs.{ChannelDependencies.{DependsBy, IsNeverRandomized, MayComeBy}, Dependencies.AreByBelow};
    ghost use Rattle.c104_check.specs.Dependencies.{AreDependencies, AreListedAsOwn, AreListedAsRandom, AreListedAt, AreListedBelow};
    ghost use Rattle.c104_check.specs.{Dependencies.{AreListedFor, IsExtended, IsListedOver}, Routes.{SwitchPort, header_count, to_port}};
    ghost use Rattle.c104_check.specs.{Starts.AreOwnStarts, Trails.{IsInput, IsNetwork, routes_in}};

    /// The dependencies of all inputs. That of an input over a link of its switch stands at its place times 32 and
    /// the link.
    pub(crate) fn dependencies(&self, alloc: Global) -> Result<Vec<Option<Dependency>>, NoMemory>
        requires network { IsNetwork (routes_in self.now) }
        ensures room { IfOk result (λ table. length table.items ≡ length (routes_in self.now).settings * 32 * 32) }
        ensures dependencies { IfOk result (λ table. AreDependencies (routes_in self.now) table.items) }
        ensures listed { IfOk result (λ table. AreListedBelow (routes_in self.now) table.items (header_count (routes_in self.now))) }
    {
        let starts = self.own_starts(alloc)?;
        let mut table = vec![in alloc; None::<Dependency>; self.switch_count() * LINKS * LINKS]?;
        let randomized = self.is_ever_randomized();
        self.add_dependencies(alloc, starts.as_slice(), randomized, &mut table)?;
        Ok(table)
    }

    /// Adds the dependencies by all headers, where own headers begin at these starts. The flag tells whether random
    /// headers are put before any packets.
    fn add_dependencies(
        &self,
        alloc: Global,
        starts: &[Start],
        randomized: bool,
        table: &mut [Option<Dependency>],
    ) -> Result<(), NoMemory>
        requires network { IsNetwork (routes_in self.now) }
        requires starts { AreOwnStarts (routes_in self.now) starts.now (length (routes_in self.now).ranges) }
        requires random { randomized ≡ false → IsNeverRandomized (routes_in self.now) }
        requires room { length table.old ≡ length (routes_in self.now).settings * 32 * 32 }
        requires empty { AreByBelow 0 table.old }
        ensures kept { OnOk result (IsExtended (routes_in self.now) (header_count (routes_in self.now)) table.old table.new) }
        ensures listed { OnOk result (AreListedBelow (routes_in self.now) table.new (header_count (routes_in self.now))) }
    {
        for header in 0..self.header_count() {
            self.add_by_header(alloc, header, starts, randomized, table)?;
        }
        Ok(())
    }

    /// The same by one header.
    fn add_by_header(
        &self,
        alloc: Global,
        header: u32,
        starts: &[Start],
        randomized: bool,
        table: &mut [Option<Dependency>],
    ) -> Result<(), NoMemory>
        requires network { IsNetwork (routes_in self.now) }
        requires starts { AreOwnStarts (routes_in self.now) starts.now (length (routes_in self.now).ranges) }
        requires random { randomized ≡ false → IsNeverRandomized (routes_in self.now) }
        requires room { length table.old ≡ length (routes_in self.now).settings * 32 * 32 }
        requires low { AreByBelow (header + 1) table.old }
        ensures kept { OnOk result (IsExtended (routes_in self.now) (header + 1) table.old table.new) }
        ensures listed { OnOk result (AreListedFor (routes_in self.now) table.new header) }
    {
        self.add_as_own(alloc, header, starts, table)?;
        self.add_as_random(alloc, header, randomized, table)?;
        Ok(())
    }

    /// By one as the own header of packets, if it has an owner.
    fn add_as_own(
        &self,
        alloc: Global,
        header: u32,
        starts: &[Start],
        table: &mut [Option<Dependency>],
    ) -> Result<(), NoMemory>
        requires network { IsNetwork (routes_in self.now) }
        requires starts { AreOwnStarts (routes_in self.now) starts.now (length (routes_in self.now).ranges) }
        requires room { length table.old ≡ length (routes_in self.now).settings * 32 * 32 }
        requires low { AreByBelow (header + 1) table.old }
        ensures kept { OnOk result (IsExtended (routes_in self.now) (header + 1) table.old table.new) }
        ensures listed { OnOk result (AreListedAsOwn (routes_in self.now) table.new header) }
    {
        if self.owner(header).is_none() {
            return Ok(());
        }
        let inputs = self.reached_as_own(alloc, header, starts)?;
        self.add_at_all(header, inputs.as_slice(), table);
        Ok(())
    }

    /// By one as a random header, if any are put before packets.
    fn add_as_random(
        &self,
        alloc: Global,
        header: u32,
        randomized: bool,
        table: &mut [Option<Dependency>],
    ) -> Result<(), NoMemory>
        requires network { IsNetwork (routes_in self.now) }
        requires random { randomized ≡ false → IsNeverRandomized (routes_in self.now) }
        requires room { length table.old ≡ length (routes_in self.now).settings * 32 * 32 }
        requires low { AreByBelow (header + 1) table.old }
        ensures kept { OnOk result (IsExtended (routes_in self.now) (header + 1) table.old table.new) }
        ensures listed { OnOk result (AreListedAsRandom (routes_in self.now) table.new header) }
    {
        if !randomized {
            return Ok(());
        }
        let inputs = self.reached_as_random(alloc, header)?;
        self.add_at_all(header, inputs.as_slice(), table);
        Ok(())
    }

    /// By one at each of these inputs.
    fn add_at_all(&self, header: u32, inputs: &[SwitchPort], table: &mut [Option<Dependency>])
        requires arrive { AllByRecursion (MayComeBy (routes_in self.now) header) inputs.now }
        requires inside { AllByRecursion (IsInput (length (routes_in self.now).settings)) inputs.now }
        requires network { IsNetwork (routes_in self.now) }
        requires room { length table.old ≡ length (routes_in self.now).settings * 32 * 32 }
        requires low { AreByBelow (header + 1) table.old }
        ensures kept { IsExtended (routes_in self.now) (header + 1) table.old table.new }
        ensures listed { AllByRecursion (AreListedAt (routes_in self.now) table.new header) inputs.now }
    {
        for at in inputs {
            self.add_at_input(header, *at, table);
        }
    }

    /// The same at one input.
    fn add_at_input(&self, header: u32, at: SwitchPort, table: &mut [Option<Dependency>])
        requires arrives { MayComeBy (routes_in self.now) header at }
        requires network { IsNetwork (routes_in self.now) }
        requires input { IsInput (length (routes_in self.now).settings) at }
        requires room { length table.old ≡ length (routes_in self.now).settings * 32 * 32 }
        requires low { AreByBelow (header + 1) table.old }
        ensures kept { IsExtended (routes_in self.now) (header + 1) table.old table.new }
        ensures listed { AreListedAt (routes_in self.now) table.new header at }
    {
        let Some(group) = self.selected(header, at) else {
            return;
        };
        for link in group.first..group.last + 1 {
            let switch = at.switch;
            self.add_over_link(header, at, SwitchPort { switch, link }, table);
        }
    }

    /// The same over one link.
    fn add_over_link(
        &self,
        header: u32,
        at: SwitchPort,
        link: SwitchPort,
        table: &mut [Option<Dependency>],
    )
        requires depends { (q : SwitchPort) → (routes_in self.now).peer (to_port link) ≡ Some (to_port q) → DependsBy (routes_in self.now) header at q }
        requires network { IsNetwork (routes_in self.now) }
        requires input { IsInput (length (routes_in self.now).settings) at }
        requires link { IsInput (length (routes_in self.now).settings) link }
        requires here { link.switch ≡ at.switch }
        requires room { length table.old ≡ length (routes_in self.now).settings * 32 * 32 }
        requires low { AreByBelow (header + 1) table.old }
        ensures kept { IsExtended (routes_in self.now) (header + 1) table.old table.new }
        ensures listed { IsListedOver (routes_in self.now) table.new header at link }
    {
        match self.peer(link) {
            Some(Port::Switch(next, input)) => {
                let next = SwitchPort {
                    switch: next,
                    link: input,
                };
                table[at.place() * LINKS + link.link] = Some(Dependency { next, header });
            }
            Some(Port::Terminal(_)) => (),
            None => (),
        }
    }
}
