//! How much a plan may hold, and how long its description may be.
ghost use Rattle.std.specs.Prelude.{◌≡◌};
ghost use Rattle.c104_plan.specs.Plans.{header_values, is_buffer_size};

/// The most bytes of a description: 1 MiB.
pub const MAX_DESCRIPTION: usize = 1_048_576;

/// The most switches of a plan.
pub const MAX_SWITCHES: usize = 64;

/// The most terminals of a plan.
pub const MAX_TERMINALS: usize = 256;

/// The most bytes of a header.
pub const MAX_HEADER_BYTES: u32 = 2;

/// How many labels there are, and the highest limit of a row: how many values a header of two bytes
/// has.
pub const LABELS: u32 = 0x10000;

/// How many values a header of this many bytes has: 256 where it is one byte, and 65536 where it is two.
pub fn header_values(header: usize) -> u32
    ensures { result ≡ header_values header }
{
    if header > 1 { LABELS } else { 256 }
}

/// Whether a buffer may have room for `size` tokens.
pub fn is_buffer_size(size: u32) -> bool
    ensures { result ≡ is_buffer_size size }
{
    size % 8 == 0 && 8 <= size && size <= 64
}
