//! The words of seeds.
ghost use Rattle.std.specs.Prelude.{◌≡◌};
ghost use Rattle.c104_script.specs.SeedWords.{long_number, seed_word};

use crate::faults::LineFault;

/// The largest seed.
const MAX_SEED: u128 = 18_446_744_073_709_551_615;

/// The most digits of a seed.
const MAX_SEED_DIGITS: usize = 20;

/// The seed that a word spells: 1 to 20 decimal digits, below 2^64.
pub(crate) fn read_seed(word: &[u8]) -> Result<u64, LineFault>
    ensures { result ≡ seed_word word.now }
{
    let Some(value) = read_long_number(word) else {
        return Err(LineFault::BadNumber);
    };
    if value > MAX_SEED {
        return Err(LineFault::BadNumber);
    }
    Ok(value as u64)
}

/// The value of 1 to 20 decimal digits. None for every other word.
fn read_long_number(word: &[u8]) -> Option<u128>
    ensures { result ≡ long_number word.now }
{
    if word.is_empty() || word.len() > MAX_SEED_DIGITS {
        return None;
    }
    let mut value = 0;
    for digit in word {
        if !digit.is_ascii_digit() {
            return None;
        }
        value = 10 * value + u128::from(digit - b'0');
    }
    Some(value)
}
