//! Words of hexadecimal digits, before which `0x` or `0X` may stand.
ghost use Rattle.std.specs.Prelude.{IfSome, ◌<◌, ◌^◌, ◌≡◌, ◌≤◌};
ghost use Rattle.{c104_script.specs.HexWords.{address_word, hex_number, is_prefix, register_word, unprefixed}, c104_token.specs.Text.hex_value};

use crate::faults::LineFault;

/// The most digits of a register's address.
const ADDRESS_DIGITS: usize = 4;

/// The most digits of a register's value.
const VALUE_DIGITS: usize = 8;

/// The address that a word spells, in 1 to 4 digits.
pub(crate) fn read_address(word: &[u8]) -> Result<u16, LineFault>
    ensures { result ≡ address_word word.now }
{
    let Some(value) = read_hex(unprefixed(word), ADDRESS_DIGITS) else {
        return Err(LineFault::BadHex);
    };
    Ok(value as u16)
}

/// The value of a register that a word spells, in 1 to 8 digits.
pub(crate) fn read_register(word: &[u8]) -> Result<u32, LineFault>
    ensures { result ≡ register_word word.now }
{
    let Some(value) = read_hex(unprefixed(word), VALUE_DIGITS) else {
        return Err(LineFault::BadHex);
    };
    Ok(value)
}

/// The word without the `0x` or `0X` with which it begins, if it does.
fn unprefixed(word: &[u8]) -> &[u8]
    ensures { result.now ≡ unprefixed word.now }
{
    let [first, second, digits @ ..] = word else {
        return word;
    };
    if is_prefix(*first, *second) {
        digits
    } else {
        word
    }
}

/// Whether these are the bytes `0x` or `0X`.
fn is_prefix(first: u8, second: u8) -> bool
    ensures { result ≡ is_prefix first second }
{
    first == b'0' && (second == b'x' || second == b'X')
}

/// The number that a word spells, in at least one digit and at most `most`. None where it is anything else.
fn read_hex(word: &[u8], most: usize) -> Option<u32>
    requires { most ≤ 8 }
    ensures value { result ≡ hex_number most word.now }
    ensures range { IfSome result (λ value. value < 16 ^ most) }
{
    if word.is_empty() || word.len() > most {
        return None;
    }
    let mut value = 0;
    for digit in word {
        let Some(low) = digit_value(*digit) else {
            return None;
        };
        value = 16 * value + u32::from(low);
    }
    Some(value)
}

/// The value of a hexadecimal digit, of either case.
fn digit_value(digit: u8) -> Option<u8>
    ensures value { result ≡ hex_value digit }
    ensures range { IfSome result (λ value. value < 16) }
{
    match digit {
        b'0'..=b'9' => Some(digit - b'0'),
        b'A'..=b'F' => Some(digit - b'A' + 10),
        b'a'..=b'f' => Some(digit - b'a' + 10),
        _ => None,
    }
}
