//! Numbers as they are told: those in 32 and 64 bits stop at the largest number rather than wrap.
ghost use Rattle.std.specs.Prelude.{◌≡◌, ◌+◌};
ghost use Rattle.c104_rows.specs.Numbers.{few};

/// A number in 32 bits, or the largest of them.
// The cast loses nothing: a larger one isn't cast.
pub(crate) fn saturate_u32(count: u64) -> u32
    ensures { result ≡ few count }
{
    count.min(u64::from(u32::MAX)) as u32
}

/// This much more.
pub(crate) fn add_saturating(count: u32, more: u64) -> u32
    ensures { result ≡ few (count + more) }
{
    saturate_u32(u64::from(count).saturating_add(more))
}
