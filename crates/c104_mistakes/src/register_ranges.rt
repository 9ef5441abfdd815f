//! The values that registers take.

use crate::register_names::register_named;
use crate::script_mistakes::{
    BASE_RANGE, LIMIT_RANGE, MODE_RANGE, RANDOM_BASE_RANGE, RANDOM_RANGE_RANGE, SELECT_RANGE,
};

/// The offsets of a link's registers that can be set, but for the rows of its table.
const MODE: u8 = 0x00;

const RANDOM_BASE: u8 = 0x01;

const RANDOM_RANGE: u8 = 0x02;

const BASE: u8 = 0x3f;

/// The offset of the first register Select; below it are those of limits.
const FIRST_SELECT: u8 = 0x80;

/// How many addresses a link has.
const LINK_ADDRESSES: u16 = 0x100;

/// What the register takes that refused a value, by its offset among those of a link.
pub(crate) fn range_of(offset: u8) -> &'static str {
    match offset {
        MODE => MODE_RANGE,
        RANDOM_BASE => RANDOM_BASE_RANGE,
        RANDOM_RANGE => RANDOM_RANGE_RANGE,
        BASE => BASE_RANGE,
        _ if offset < FIRST_SELECT => LIMIT_RANGE,
        _ => SELECT_RANGE,
    }
}

/// The same by the word for it: its name, or its address.
pub(crate) fn range_of_word(word: Option<&[u8]>) -> &'static str {
    let Some(word) = word else {
        return range_of(0);
    };
    match register_named(word) {
        Some((addr, _)) => range_of((addr % LINK_ADDRESSES) as u8),
        None => range_of(last_byte(word)),
    }
}

/// The last two hexadecimal digits of an address, which are the offset.
fn last_byte(word: &[u8]) -> u8 {
    match word {
        [.., high, low] => 16u8
            .saturating_mul(digit_value(*high))
            .saturating_add(digit_value(*low)),
        [low] => digit_value(*low),
        _ => 0,
    }
}

/// The value of a hexadecimal digit.
fn digit_value(digit: u8) -> u8 {
    match digit {
        b'0'..=b'9' => digit - b'0',
        b'a'..=b'f' => digit - b'a' + 10,
        b'A'..=b'F' => digit - b'A' + 10,
        _ => 0,
    }
}
