//! Which links continue a group.
ghost use Rattle.std.specs.{Int.bit_at, Prelude.{length, ℕ, ◌≡◌, ◌≤◌}};
ghost use Rattle.c104_regs.specs.{Groups.{continue_bits, continues_at}, Values.bit_value};

use crate::packed::PackedSettings;
use crate::registers::LINKS;
use crate::values::number;

/// The links that continue the group of the link before them, by the settings of all links: link l
/// at bit l.
pub fn continues_of(settings: &[PackedSettings]) -> u32
    // A word has no bit for a link past the last that a switch has.
    requires { length settings.now ≤ LINKS }
    ensures number { result ≡ continue_bits settings.now }
    ensures bits { (l : ℕ) → bit_at result l ≡ bit_value (continues_at settings.now l) 1 }
{
    let mut bits = 0;
    let mut link = settings.len();
    while link > 0 {
        link -= 1;
        bits = number(settings[link].continue_group(), 1) + 2 * bits;
    }
    bits
}
