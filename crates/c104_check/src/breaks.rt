//! The headers that are tried.
ghost use Rattle.std.specs.{List.Contains, Prelude.{IsTrue, ◌↔◌, ◌≡◌}};
ghost use Rattle.c104_check.specs.Breaks.{AddsMarks, BoundsRange, ChangesSelect};

use crate::ports::SwitchPort;
use crate::random::random_count;
use crate::routes::Routes;
use c104_interval::Table;
use c104_regs::LINKS;
use c104_token::NoMemory;
use std::alloc::Global;

impl<'a> Routes<'a> {
    ghost use Rattle.std.specs.Prelude.{IfOk, OnOk, false, length, ℕ, ◌≡◌};
    ghost use Rattle.c104_check.specs.Breaks.{AddsMarks, AreBreaks, BoundsLabels, BoundsRandomAt, BreaksAt, ChangesSelectAt, is_marked};
    ghost use Rattle.c104_check.specs.{Routes.{SwitchPort as ThePort, header_count}, Trails.{IsInput, routes_in}};

    /// Marks of the headers at which anything may change: 0, those for which a wired input's table selects
    /// otherwise than for the one before, and the first and the end of every range and of all random headers.
    /// All others fare as the one before them.
    pub(crate) fn breaks(&self, alloc: Global) -> Result<Vec<bool>, NoMemory>
        ensures { IfOk result (λ breaks. AreBreaks (routes_in self.now) breaks.items) }
    {
        let mut marks = vec![in alloc; false; self.header_count() as usize]?;
        self.mark_breaks(alloc, &mut marks)?;
        Ok(marks)
    }

    /// The same, where none is marked yet.
    fn mark_breaks(&self, alloc: Global, marks: &mut [bool]) -> Result<(), NoMemory>
        requires count { length marks.old ≡ header_count (routes_in self.now) }
        requires none { (h : ℕ) → is_marked marks.old h ≡ false }
        ensures { OnOk result (AreBreaks (routes_in self.now) marks.new) }
    {
        mark(marks, 0);
        self.mark_inputs(alloc, marks)?;
        self.mark_ranges(marks);
        Ok(())
    }

    /// The changes in all wired inputs' tables are marked, and the first and the end of all random headers.
    fn mark_inputs(&self, alloc: Global, marks: &mut [bool]) -> Result<(), NoMemory>
        requires { length marks.old ≡ header_count (routes_in self.now) }
        ensures { OnOk result (AddsMarks marks.old marks.new
            (λ h. (p : ThePort) × BreaksAt (routes_in self.now) p h)) }
    {
        for place in 0..self.switch_count() * LINKS {
            self.mark_input(alloc, SwitchPort::at(place), marks)?;
        }
        Ok(())
    }

    /// Those of one input are, and its random headers' first and end.
    fn mark_input(&self, alloc: Global, at: SwitchPort, marks: &mut [bool]) -> Result<(), NoMemory>
        requires input { IsInput (length (routes_in self.now).settings) at }
        requires count { length marks.old ≡ header_count (routes_in self.now) }
        ensures { OnOk result (AddsMarks marks.old marks.new (BreaksAt (routes_in self.now) at)) }
    {
        self.mark_changes(alloc, at, marks)?;
        self.mark_random(at, marks);
        Ok(())
    }

    /// The first and the end of the random headers of an input are marked.
    fn mark_random(&self, at: SwitchPort, marks: &mut [bool])
        requires { IsInput (length (routes_in self.now).settings) at }
        ensures { AddsMarks marks.old marks.new (BoundsRandomAt (routes_in self.now) at) }
    {
        let settings = self.settings(at);
        if settings.randomize() {
            let count = self.header_count();
            mark(marks, u64::from(settings.random_base() % count));
            mark(
                marks,
                (u64::from(settings.random_base()) + u64::from(random_count(settings)))
                    % u64::from(count),
            );
        }
    }

    /// The changes in one input's table are, where it is wired.
    fn mark_changes(
        &self,
        alloc: Global,
        at: SwitchPort,
        marks: &mut [bool],
    ) -> Result<(), NoMemory>
        requires input { IsInput (length (routes_in self.now).settings) at }
        requires count { length marks.old ≡ header_count (routes_in self.now) }
        ensures { OnOk result (AddsMarks marks.old marks.new (ChangesSelectAt (routes_in self.now) at)) }
    {
        if self.peer(at).is_none() {
            return Ok(());
        }
        let table = self.settings(at).table();
        let segments = table.segments(alloc, self.header_count())?;
        mark_among(marks, &table, segments.as_slice());
        Ok(())
    }

    /// The first and the end of every range are marked.
    fn mark_ranges(&self, marks: &mut [bool])
        ensures { AddsMarks marks.old marks.new (BoundsLabels (routes_in self.now)) }
    {
        let ranges = self.ranges();
        for terminal in 0..ranges.len() {
            let range = ranges[terminal];
            mark_range(marks, range);
        }
    }
}

/// The first and the end of a range are marked.
fn mark_range(marks: &mut [bool], range: (u32, u32))
    ensures { AddsMarks marks.old marks.new (BoundsRange range) }
{
    mark(marks, u64::from(range.0));
    mark(marks, u64::from(range.0) + u64::from(range.1));
}

/// Those of some headers are marked for which a table selects otherwise than for the one before.
fn mark_among(marks: &mut [bool], table: &Table, headers: &[u32])
    ensures { AddsMarks marks.old marks.new (λ h. ChangesSelect table.now h × Contains headers.now h) }
{
    for header in headers {
        mark_change(marks, table, *header);
    }
}

/// A header is, if the table selects otherwise for it.
fn mark_change(marks: &mut [bool], table: &Table, header: u32)
    ensures { AddsMarks marks.old marks.new (λ h. ChangesSelect table.now h × (h ≡ header)) }
{
    if changes(table, header) {
        mark(marks, u64::from(header));
    }
}

/// Whether a table selects otherwise for a header than for the one before. There is none before 0.
fn changes(table: &Table, header: u32) -> bool
    ensures { IsTrue result ↔ ChangesSelect table.now header }
{
    header > 0 && table.select(header) != table.select(header - 1)
}

/// A header is marked, where there is one.
fn mark(marks: &mut [bool], header: u64)
    ensures { AddsMarks marks.old marks.new (λ h. h ≡ header) }
{
    if header < marks.len() as u64 {
        marks[header as usize] = true;
    }
}
