//! The number that a word writes.
ghost use Rattle.std.specs.Prelude.{◌≡◌};
ghost use Rattle.scenario.specs.Texts.{digits, number_of};

use crate::call::Problem;

fn is_all_digits(word: &str) -> bool
    ensures { result ≡ digits word.now }
{
    word.bytes().all(|b| b.is_ascii_digit())
}

/// Digits alone make a number: `parse` would also take a sign.
pub(crate) fn read_number(word: &str) -> Result<u64, Problem>
    ensures { result ≡ number_of word.now }
{
    if word.is_empty() || !is_all_digits(word) {
        return Err(Problem::NotANumber);
    }
    word.parse().map_err(|_| Problem::NumberTooLarge)
}
