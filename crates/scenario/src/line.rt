//! A line read into a call.
ghost use Rattle.std.specs.Prelude.{◌≡◌, true, Ok};
ghost use Rattle.std.specs.Option.{ok_or, option_copied, option_map};
ghost use Rattle.scenario.specs.declared.call.Problem.TheVariants.{UnknownCall};
ghost use Rattle.scenario.specs.Texts.{left};
ghost use Rattle.scenario.specs.Lines.{asks, numbers_of, flow_form, open_form, place_form, add_form, number_form, name_of, call_form, line_form, has_lists, line_has_lists, Reads};

use crate::call::{Call, FlowNumbers, Problem};
use crate::words::Words;
use std::alloc::Global;
use std::str::FromStr;

/// The calls by name, without what stands behind it.
#[derive(Clone, Copy)]
enum Name {
    Open,
    Place,
    Add,
    Check,
    Certificate,
    Gates,
}

impl FromStr for Name {
    type Err = Problem;

    ghost from_str_gives = { λ word r. r ≡ ok_or (name_of word) UnknownCall };

    fn from_str(word: &str) -> Result<Name, Problem> {
        match word {
            "open" => Ok(Name::Open),
            "place" => Ok(Name::Place),
            "add" => Ok(Name::Add),
            "check" => Ok(Name::Check),
            "certificate" => Ok(Name::Certificate),
            "gates" => Ok(Name::Gates),
            _ => Err(Problem::UnknownCall),
        }
    }
}

// What takes the heap reads a list, and may lack memory: so the heap is no field of the words.
fn read_open(heap: Global, words: &mut Words) -> Result<Call, Problem>
    ensures { Reads asks result (open_form (left words.old)) true }
{
    let cycle = words.number_after("cycle")?;
    let error = words.number_after("error")?;
    let extension = words.number_after("extension")?;
    words.expect("delays")?;
    let delays = words.numbers(heap, None)?;
    Ok(Call::Open {
        cycle,
        error,
        extension,
        delays,
    })
}

// A flow's numbers, with its route up to the word `stop` or to the end of the line.
fn read_flow(heap: Global, words: &mut Words, stop: Option<&str>) -> Result<FlowNumbers, Problem>
    ensures { Reads (λ f. (numbers_of f, left words.new)) result (flow_form (option_copied stop.entry) (left words.old)) true }
{
    let release = words.number_after("release")?;
    let octets = words.number_after("octets")?;
    let deadline = words.number_after("deadline")?;
    words.expect("route")?;
    let route = words.numbers(heap, stop)?;
    Ok(FlowNumbers {
        release,
        octets,
        deadline,
        route,
    })
}

fn read_place(heap: Global, words: &mut Words) -> Result<Call, Problem>
    ensures { Reads asks result (place_form (left words.old)) true }
{
    Ok(Call::Place(read_flow(heap, words, None)?))
}

fn read_add(heap: Global, words: &mut Words) -> Result<Call, Problem>
    ensures { Reads asks result (add_form (left words.old)) true }
{
    let flow = read_flow(heap, words, Some("offsets"))?;
    let offsets = words.numbers(heap, None)?;
    Ok(Call::Add { flow, offsets })
}

fn read_only_number(words: &mut Words) -> Result<u64, Problem>
    ensures { result ≡ number_form (left words.old) }
{
    let number = words.number()?;
    words.end()?;
    Ok(number)
}

// A direct match: each call has fields of its own, and closures in a table would need one shape.
fn read_call(heap: Global, name: Name, words: &mut Words) -> Result<Call, Problem>
    ensures { Reads asks result (call_form name (left words.old)) (has_lists name) }
{
    match name {
        Name::Open => read_open(heap, words),
        Name::Place => read_place(heap, words),
        Name::Add => read_add(heap, words),
        Name::Check => {
            words.end()?;
            Ok(Call::Check)
        }
        Name::Certificate => {
            let flow = read_only_number(words)?;
            Ok(Call::Certificate { flow })
        }
        Name::Gates => {
            let port = read_only_number(words)?;
            Ok(Call::Gates { port })
        }
    }
}

/// Reads a line: no call where it has no words.
pub fn parse_line(heap: Global, line: &str) -> Result<Option<Call>, Problem>
    ensures { Reads (option_map asks) result (line_form line.now) (line_has_lists line.now) }
{
    let mut words = Words::of(line);
    let Some(word) = words.next() else {
        return Ok(None);
    };
    let name: Name = word.parse()?;
    let call = read_call(heap, name, &mut words)?;
    Ok(Some(call))
}

#[cfg(test)]
mod tests {
    use super::*;
    use std::test::Fail;

    #[test]
    fn reads_a_call_with_a_list(rt: HostRuntime) -> Result<(), Fail> {
        let heap = rt.alloc();
        match parse_line(
            heap,
            "open cycle 10000 error 10 extension 200 delays 50 30 # ports",
        )? {
            Some(Call::Open { cycle, delays, .. }) => {
                assert!(rt; cycle == 10000);
                assert!(rt; delays.as_slice() == [50, 30].as_slice());
                Ok(())
            }
            _ => Err(Fail::new("not an open")),
        }
    }

    #[test]
    fn passes_over_a_line_with_no_words(rt: HostRuntime) -> Result<(), Fail> {
        assert!(rt; parse_line(rt.alloc(), "  \t# nothing")?.is_none());
        Ok(())
    }

    #[test]
    fn names_the_problem(rt: HostRuntime) -> Result<(), Fail> {
        match parse_line(rt.alloc(), "gates one") {
            Err(problem) => {
                assert_eq!(rt; problem, Problem::NotANumber);
                Ok(())
            },
            Ok(_) => Err(Fail::new("read")),
        }
    }
}
