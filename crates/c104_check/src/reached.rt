//! The inputs to which headers may come.

use crate::met::MetInputs;
use crate::ports::SwitchPort;
use crate::routes::Routes;
use crate::starts::Start;
use c104_crossbar::Group;
use c104_plan::Port;
use c104_regs::LINKS;
use c104_token::NoMemory;
use std::alloc::Global;

impl<'a> Routes<'a> {
    ghost use Rattle.std.specs.{List.AllByRecursion, Prelude.{IfOk, IsTrue, MatchOption, OnOk, Some, [], length, ℕ, ◌↔◌, ◌≡◌, ◌≢◌}};
    ghost use Rattle.c104_check.specs.Parts.{AreJust, Has, IsBeginning, IsRandomBeginning, IsReachedAsOwn, IsReachedAsRandom};
    ghost use Rattle.c104_check.specs.{Parts.IsReachedFrom, Reach.{AreDistinctInputs, HaveFollowers, IsLongerBy, IsSelected, MayTake}};
    ghost use Rattle.c104_check.specs.{Reach.with_peer, Routes.{select, to_port}, Shown.Follows, Starts.AreOwnStarts, Trails.IsInput};
    ghost use Rattle.{c104_check.specs.Trails.{IsNetwork, routes_in}, c104_interval.specs.declared.intervals.Select.TheVariants.Link};

    /// The inputs to which a header may come as the own one of packets, where own headers begin at these starts.
    pub(crate) fn reached_as_own(
        &self,
        alloc: Global,
        header: u32,
        starts: &[Start],
    ) -> Result<Vec<SwitchPort>, NoMemory>
        requires { AreOwnStarts (routes_in self.now) starts.now (length (routes_in self.now).ranges) }
        ensures reached { IfOk result (λ inputs.
            AreJust (IsReachedAsOwn (routes_in self.now) header) inputs.items) }
        ensures inside { IfOk result (λ inputs.
            AllByRecursion (IsInput (length (routes_in self.now).settings)) inputs.items) }
    {
        let mut inputs = MetInputs::new(alloc, self.switch_count() * LINKS)?;
        self.add_beginnings(starts, &mut inputs)?;
        self.add_reached(header, &mut inputs)?;
        Ok(inputs.into_inputs())
    }

    /// Those to which it may come as a random header.
    pub(crate) fn reached_as_random(
        &self,
        alloc: Global,
        header: u32,
    ) -> Result<Vec<SwitchPort>, NoMemory>
        ensures reached { IfOk result (λ inputs.
            AreJust (IsReachedAsRandom (routes_in self.now) header) inputs.items) }
        ensures inside { IfOk result (λ inputs.
            AllByRecursion (IsInput (length (routes_in self.now).settings)) inputs.items) }
    {
        let mut inputs = MetInputs::new(alloc, self.switch_count() * LINKS)?;
        self.add_random_entries(header, &mut inputs)?;
        self.add_reached(header, &mut inputs)?;
        Ok(inputs.into_inputs())
    }

    /// Those to which it may come from one input.
    pub(crate) fn reached_from(
        &self,
        alloc: Global,
        header: u32,
        at: SwitchPort,
    ) -> Result<Vec<SwitchPort>, NoMemory>
        requires { IsInput (length (routes_in self.now).settings) at }
        ensures reached { IfOk result (λ inputs.
            AreJust (IsReachedFrom (routes_in self.now) header (λ x. at ≡ x)) inputs.items) }
        ensures inside { IfOk result (λ inputs.
            AllByRecursion (IsInput (length (routes_in self.now).settings)) inputs.items) }
    {
        let mut inputs = MetInputs::new(alloc, self.switch_count() * LINKS)?;
        inputs.add(at)?;
        self.add_reached(header, &mut inputs)?;
        Ok(inputs.into_inputs())
    }

    /// The inputs of the terminals before whose packets a header may be put as a random one join none.
    fn add_random_entries(&self, header: u32, inputs: &mut MetInputs) -> Result<(), NoMemory>
        requires { inputs.old ≡ [] }
        ensures distinct { OnOk result (AreDistinctInputs (routes_in self.now) inputs.new) }
        ensures entries { OnOk result (AreJust (IsRandomBeginning (routes_in self.now) header) inputs.new) }
    {
        if header >= self.header_count() {
            return Ok(());
        }
        for terminal in 0..self.ranges().len() {
            let entry = self.entry(terminal);
            if self.is_random_at(header, entry) {
                inputs.add(entry)?;
            }
        }
        Ok(())
    }

    /// The inputs at which own headers begin join none.
    fn add_beginnings(&self, starts: &[Start], inputs: &mut MetInputs) -> Result<(), NoMemory>
        requires empty { inputs.old ≡ [] }
        requires network { IsNetwork (routes_in self.now) }
        requires starts { AreOwnStarts (routes_in self.now) starts.now (length (routes_in self.now).ranges) }
        ensures distinct { OnOk result (AreDistinctInputs (routes_in self.now) inputs.new) }
        ensures beginnings { OnOk result (AreJust (IsBeginning (routes_in self.now)) inputs.new) }
    {
        for start in starts {
            inputs.add(start.at)?;
        }
        Ok(())
    }

    /// All inputs to which a header may come from these join them.
    fn add_reached(&self, header: u32, inputs: &mut MetInputs) -> Result<(), NoMemory>
        requires network { IsNetwork (routes_in self.now) }
        requires distinct { AreDistinctInputs (routes_in self.now) inputs.old }
        ensures reached { OnOk result
            (AreJust (IsReachedFrom (routes_in self.now) header (Has inputs.old)) inputs.new) }
        ensures inside { OnOk result
            (AllByRecursion (IsInput (length (routes_in self.now).settings)) inputs.new) }
    {
        let mut done = 0;
        while done < inputs.len() {
            let at = inputs.input_at(done);
            self.add_followers(header, at, inputs)?;
            done += 1;
        }
        Ok(())
    }

    /// The inputs to which a header may go from one of these join them.
    fn add_followers(
        &self,
        header: u32,
        at: SwitchPort,
        inputs: &mut MetInputs,
    ) -> Result<(), NoMemory>
        requires network { IsNetwork (routes_in self.now) }
        requires input { IsInput (length (routes_in self.now).settings) at }
        requires distinct { AreDistinctInputs (routes_in self.now) inputs.old }
        ensures distinct { OnOk result (AreDistinctInputs (routes_in self.now) inputs.new) }
        ensures longer { OnOk result (IsLongerBy (Follows (routes_in self.now) header at) inputs.old inputs.new) }
        ensures followers { OnOk result (HaveFollowers (routes_in self.now) header inputs.new at) }
    {
        let Some(group) = self.selected(header, at) else {
            return Ok(());
        };
        for link in group.first..group.last + 1 {
            let switch = at.switch;
            self.add_peer(SwitchPort { switch, link }, inputs)?;
        }
        Ok(())
    }

    /// What a link is wired to joins these inputs, where that is one.
    fn add_peer(&self, link: SwitchPort, inputs: &mut MetInputs) -> Result<(), NoMemory>
        requires { IsInput (length (routes_in self.now).settings) link }
        ensures { OnOk result (inputs.new
            ≡ with_peer inputs.old ((routes_in self.now).peer (to_port link))) }
    {
        match self.peer(link) {
            Some(Port::Switch(switch, link)) => inputs.add(SwitchPort { switch, link }),
            Some(Port::Terminal(_)) => Ok(()),
            None => Ok(()),
        }
    }

    /// Whether a header may leave an input by a link. What is no header of the network doesn't.
    pub(crate) fn may_take(&self, header: u32, at: SwitchPort, link: SwitchPort) -> bool
        requires { IsInput (length (routes_in self.now).settings) at }
        ensures { IsTrue result ↔ MayTake (routes_in self.now) header at link }
    {
        if header >= self.header_count() || at.switch != link.switch {
            return false;
        }
        match self.selected(header, at) {
            Some(group) => group.contains(link.link),
            None => false,
        }
    }

    /// The group that a header selects at an input. None where it selects no link.
    pub(crate) fn selected(&self, header: u32, at: SwitchPort) -> Option<Group>
        requires { IsInput (length (routes_in self.now).settings) at }
        ensures { MatchOption result
            ((g : ℕ) → select (routes_in self.now) at.switch at.link header ≢ Some (Link g))
            (IsSelected (routes_in self.now) header at) }
    {
        let link = self.selected_link(header, at)?;
        Some(self.group_of(at.switch, link))
    }
}
