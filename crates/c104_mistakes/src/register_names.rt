//! The names of registers in lines with a mistake.

use crate::nearest::Search;
use c104_script::RegisterName;

/// The first address past the registers of a switch's first link: those below have all names.
const NAMED_END: u16 = 0x0200;

/// The first register of this name, with its address.
pub(crate) fn register_named(word: &[u8]) -> Option<(u16, RegisterName)> {
    for addr in 0..NAMED_END {
        if let Some(register) = RegisterName::at(addr) {
            if register.name.as_bytes() == word {
                return Some((addr, register));
            }
        }
    }
    None
}

/// Whether the number of a row follows a name.
pub(crate) fn takes_row(word: &[u8]) -> bool {
    match register_named(word) {
        Some((_, register)) => register.row.is_some(),
        None => false,
    }
}

/// Whether a name is that of a link's registers.
pub(crate) fn is_of_link(word: &[u8]) -> bool {
    match register_named(word) {
        Some((_, register)) => register.link.is_some(),
        None => false,
    }
}

/// The name of a register that is nearest.
pub(crate) fn nearest_register(word: &[u8]) -> Option<&'static [u8]> {
    let mut search = Search::new(word);
    for addr in 0..NAMED_END {
        if let Some(register) = RegisterName::at(addr) {
            search.offer(register.name.as_bytes());
        }
    }
    search.found
}
