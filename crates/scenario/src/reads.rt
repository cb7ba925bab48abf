//! Keywords, numbers and lists of numbers read off a line's words.
ghost use Rattle.std.specs.Prelude.{◌≡◌, false};
ghost use Rattle.std.specs.Option.{option_copied};
ghost use Rattle.scenario.specs.Texts.{left};
ghost use Rattle.scenario.specs.Lines.{keyword, numeral, field, numerals_to, ends, begins_number, Reads};

use crate::call::Problem;
use crate::number::read_number;
use crate::words::Words;
use std::alloc::Global;

impl<'a> Words<'a> {
    pub(crate) fn expect(&mut self, key: &str) -> Result<(), Problem>
        ensures { Reads (λ _. left self.new) result (keyword key.now (left self.old)) false }
    {
        let word = self.next().ok_or(Problem::MissingWord)?;
        if word == key {
            Ok(())
        } else {
            Err(Problem::UnexpectedWord)
        }
    }

    pub(crate) fn number(&mut self) -> Result<u64, Problem>
        ensures { Reads (λ n. (n, left self.new)) result (numeral (left self.old)) false }
    {
        let word = self.next().ok_or(Problem::MissingWord)?;
        read_number(word)
    }

    pub(crate) fn number_after(&mut self, key: &str) -> Result<u64, Problem>
        ensures { Reads (λ n. (n, left self.new)) result (field key.now (left self.old)) false }
    {
        self.expect(key)?;
        self.number()
    }

    pub(crate) fn end(&mut self) -> Result<(), Problem>
        ensures { result ≡ ends (left self.old) }
    {
        match self.next() {
            None => Ok(()),
            Some(_) => Err(Problem::UnexpectedWord),
        }
    }

    /// Numbers up to the word `stop`, or where there is none to the end of the line.
    /// A `for` over `by_ref()` was tried: what it leaves in `self` is not known (`returns-in-None-stop`).
    pub(crate) fn numbers(&mut self, heap: Global, stop: Option<&str>) -> Result<Vec<u64>, Problem>
        ensures { Reads (λ v. (v.items, left self.new)) result (numerals_to (option_copied stop.entry) (left self.old)) (begins_number (left self.old)) }
    {
        let mut numbers = Vec::new(heap);
        while let Some(word) = self.next() {
            if Some(word) == stop {
                return Ok(numbers);
            }
            numbers.push(read_number(word)?)?;
        }
        match stop {
            None => Ok(numbers),
            Some(_) => Err(Problem::MissingWord),
        }
    }
}
