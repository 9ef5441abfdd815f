//! How far a terminal is over the wires alone, whatever switches select. Nothing is proved of it but that it is safe and
//! ends.

use crate::ports::SwitchPort;
use crate::routes::Routes;
use c104_plan::Port;
use c104_regs::LINKS;
use c104_token::NoMemory;
use std::alloc::Global;

impl<'a> Routes<'a> {
    ghost use Rattle.std.specs.Prelude.{◌<◌, length};
    ghost use Rattle.c104_check.specs.Trails.{routes_in};

    /// The first link of the group of a switch that leads a header to its owner and from which it is the fewest links
    /// away, by the most distant link of the group, whatever the switches behind it select.
    pub(crate) fn nearest_leading(
        &self,
        alloc: Global,
        header: u32,
        owner: usize,
        switch: usize,
    ) -> Result<Option<u8>, NoMemory> {
        if switch >= self.switch_count() {
            return Ok(None);
        }
        let mut leading = [false; LINKS];
        for link in 0..LINKS {
            let group = self.group_of(switch, link);
            leading[link] = self.all_lead(alloc, header, owner, switch, group)?;
        }
        if !leading.contains(&true) {
            return Ok(None);
        }
        self.nearest(alloc, owner, switch, &leading)
    }

    /// The nearest of the groups of these links of a switch. Switches are marked from the owner on, those first that
    /// are one link away, until all links of a group arrive at them.
    fn nearest(
        &self,
        alloc: Global,
        owner: usize,
        switch: usize,
        leading: &[bool; LINKS],
    ) -> Result<Option<u8>, NoMemory>
        requires { switch < length (routes_in self.now).settings }
    {
        let mut near = vec![in alloc; false; self.switch_count()]?;
        for _ in 0..self.switch_count() + 1 {
            if let Some(link) = self.first_near(owner, switch, leading, near.as_slice()) {
                return Ok(Some(link));
            }
            near = self.one_farther(alloc, owner, near.as_slice())?;
        }
        Ok(None)
    }

    /// The first of these links of a switch whose group's links all arrive at the owner or at a switch that is marked.
    fn first_near(
        &self,
        owner: usize,
        switch: usize,
        leading: &[bool; LINKS],
        near: &[bool],
    ) -> Option<u8>
        requires { switch < length (routes_in self.now).settings }
    {
        for link in 0..LINKS {
            if leading[link] && self.all_near(owner, SwitchPort { switch, link }, near) {
                return Some(link as u8);
            }
        }
        None
    }

    /// Whether all links of the group of a link do.
    fn all_near(&self, owner: usize, link: SwitchPort, near: &[bool]) -> bool {
        if !self.has(link) {
            return false;
        }
        let switch = link.switch;
        let group = self.group_of(switch, link.link);
        for link in group.first..group.last + 1 {
            if !self.is_near(owner, SwitchPort { switch, link }, near) {
                return false;
            }
        }
        true
    }

    /// Which switches have a link that arrives at the owner or at a switch that is marked.
    fn one_farther(
        &self,
        alloc: Global,
        owner: usize,
        near: &[bool],
    ) -> Result<Vec<bool>, NoMemory> {
        let mut marks = Vec::new(alloc);
        for switch in 0..self.switch_count() {
            marks.push(self.has_way(owner, switch, near))?;
        }
        Ok(marks)
    }

    /// Whether a switch has such a link.
    fn has_way(&self, owner: usize, switch: usize, near: &[bool]) -> bool {
        for link in 0..LINKS {
            if self.is_near(owner, SwitchPort { switch, link }, near) {
                return true;
            }
        }
        false
    }

    /// Whether a link arrives at the owner or at a switch that is marked.
    fn is_near(&self, owner: usize, link: SwitchPort, near: &[bool]) -> bool {
        if !self.has(link) {
            return false;
        }
        match self.peer(link) {
            None => false,
            Some(Port::Terminal(terminal)) => terminal == owner,
            Some(Port::Switch(switch, _)) => near.get(switch) == Some(&true),
        }
    }
}
