ghost use Rattle.std.specs.{List.Sorted.IsStrictlyIncreasing, Prelude.{IfOk, Some, filter, nat_lt, slice_get, ◌<◌, ◌≡◌}};
ghost use Rattle.c104_interval.specs.{Segments.{AreSegmentsBelow, IsConstantBetween, SelectsBySegment, separators}, Selection.IsSelected};
ghost use Rattle.c104_interval.specs.Selection.{reset_table, select};

use c104_token::NoMemory;
use std::alloc::{AllocError, Global};
use std::iter::once;

/// How many rows a table has, which is this emulator's number.
pub const ROWS: usize = 36;

/// What becomes of a packet, by the interval that its header falls into.
#[derive(Clone, Copy, Debug, PartialEq, Eq)]
pub enum Select {
    /// The packet leaves by the group of the link of this number, 0 to 31; a switch has no others.
    Link(u8),
    /// The header alone is dropped, and the next one decides: meant for random headers.
    Discard,
    /// The packet is taken in and goes nowhere: no output was meant for this header.
    Sink,
}

/// One row of a table: where its interval ends, and what a header inside it selects.
///
/// The interval begins where the row before ends, since neighbours share a separator; the first
/// row's begins at the table's base.
#[derive(Clone, Copy, Debug, PartialEq, Eq)]
pub struct Row {
    /// The first header past the interval: 0 to 65536 in a switch's registers, any number here.
    pub limit: u32,
    /// What a header inside the interval selects.
    pub select: Select,
}

impl Row {
    /// A row after a reset, whose interval is empty.
    pub const RESET: Row = Row {
        limit: 0,
        select: Select::Sink,
    };
}

/// The interval table of one input link.
///
/// The data sheet's rule is that a header lies in an interval from its base up to and without its
/// limit (`base <= header < limit`), and that neighbours share a separator. This emulator's is that
/// a table has one base and 36 rows. Limits may fall, so that intervals may be empty or overlap.
#[derive(Clone, Copy, Debug, PartialEq, Eq)]
pub struct Table {
    /// Where the first row's interval begins: 0 to 65535 in a switch's registers, any number here.
    pub base: u32,
    /// The rows, in the order in which they are tried.
    pub rows: [Row; ROWS],
}

impl Table {
    /// A table after a reset: base 0 and each row empty, so that every header selects the sink.
    pub fn reset() -> Self
        ensures { result ≡ reset_table }
    {
        Table {
            base: 0,
            rows: [Row::RESET; ROWS],
        }
    }

    /// What a header selects: what the first row that covers it says, and the sink where no row
    /// does. A header is 0 to 255 where it is one byte and 0 to 65535 where it is two; any
    /// number may be asked.
    pub fn select(&self, header: u32) -> Select
        ensures first_covering { IsSelected self.now header result }
        ensures computed { result ≡ select self.now header }
    {
        let mut low = self.base;
        for row in &self.rows {
            if low <= header && header < row.limit {
                return row.select;
            }
            low = row.limit;
        }
        Select::Sink
    }

    /// The headers at which the selection may change, ascending: the distinct values among 0, the
    /// base and the limits that lie below `size`, the number of headers, which is at
    /// least 1: 256 or 65536 on a switch.
    ///
    /// From each of these to the next all headers select alike, so what holds of the selection at
    /// each of these holds of it at every header below `size`. It fails only out of memory.
    pub fn segments(&self, alloc: Global, size: u32) -> Result<Vec<u32>, NoMemory>
        requires { 0 < size }
        ensures ascending { IfOk result (λ v. IsStrictlyIncreasing v.items) }
        ensures first { IfOk result (λ v. slice_get v.items 0 ≡ Some 0) }
        ensures members { IfOk result (λ v. AreSegmentsBelow self.now size v.items) }

        // The law that a check of all headers by their segments alone stands on.
        ensures located { IfOk result (λ v. SelectsBySegment self.now size v.items) }
        ensures constant { IfOk result (λ v. IsConstantBetween self.now size v.items) }
    {
        let mut segments = self.separators_below(alloc, size)?;
        segments.sort_unstable();
        segments.dedup();
        Ok(segments)
    }

    // Zero, the base and the limits that lie below `size`, in no order and with repeats.
    fn separators_below(&self, alloc: Global, size: u32) -> Result<Vec<u32>, AllocError>
        ensures { IfOk result (λ v. v.items ≡ filter (λ s. nat_lt s size) (separators self.now)) }
    {
        let limits = self.rows.iter().map(|row| row.limit);
        once(0)
            .chain(once(self.base))
            .chain(limits)
            .filter(|separator| *separator < size)
            .collect(alloc)
    }
}
