//! The words that the inputs of rounds are handed.
ghost use Rattle.std.specs.Prelude.{◌≡◌};
ghost use Rattle.c104_run.specs.HandedWords.{word_at, words_behind, words_of};

use rand_core::SeedableRng;
use rand_core::utils::NextWord;
use rand_xoshiro::SplitMix64;

/// The words that the inputs of a round are handed. Where an input puts random headers before packets, its word picks one.
#[derive(Clone, Copy, Debug, PartialEq, Eq)]
pub enum Words {
    /// 0 to each: so the first random header is picked.
    Zero,
    /// Of the generator SplitMix64, from this state on: the input at link l of switch s is handed the upper half of word
    /// 32 * s + l.
    Seeded(u64),
}

/// What each word adds to the state of the generator.
const STEP: u64 = 0x9e37_79b9_7f4a_7c15;

/// How many words each switch has in a round.
const SHARE: u64 = 32;

impl Words {
    /// The words from a seed, where there is one.
    pub fn of(seed: Option<u64>) -> Words
        ensures { result ≡ words_of seed }
    {
        match seed {
            None => Words::Zero,
            Some(seed) => Words::Seeded(seed),
        }
    }

    /// The word of the input at a link of a switch.
    pub(crate) fn word(self, switch: usize, link: usize) -> u32
        ensures { result ≡ word_at self switch link }
    {
        match self {
            Words::Zero => 0,
            Words::Seeded(seed) => {
                let number = (switch as u64)
                    .wrapping_mul(SHARE)
                    .wrapping_add(link as u64);
                let state = seed.wrapping_add(number.wrapping_mul(STEP));
                (SplitMix64::seed_from_u64(state).next_word() >> 32) as u32
            }
        }
    }

    /// The words of the next round of a network of this many switches.
    pub fn next(self, switches: usize) -> Words
        ensures { result ≡ words_behind self switches }
    {
        match self {
            Words::Zero => Words::Zero,
            Words::Seeded(seed) => {
                let count = (switches as u64).wrapping_mul(SHARE);
                Words::Seeded(seed.wrapping_add(count.wrapping_mul(STEP)))
            }
        }
    }
}
