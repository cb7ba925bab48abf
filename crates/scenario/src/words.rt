//! A line cut into words.
ghost use Rattle.std.specs.Prelude.{◌≡◌};
ghost use Rattle.std.specs.Iterator.{YieldsFirstRef, item_count};
ghost use Rattle.std.specs.List.{position};
ghost use Rattle.scenario.specs.Texts.{stops, left};

/// What parts words.
const GAPS: [char; 2] = [' ', '\t'];

/// The words of a line that are still to be read.
#[derive(Drop)]
pub(crate) struct Words<'a> {
    rest: &'a str,
}

// A word ends where a gap or the comment begins.
fn stops_word(b: u8) -> bool
    ensures { result ≡ stops b }
{
    matches!(b, b' ' | b'\t' | b'#')
}

// The first byte that stops a word, where there is one.
fn first_stop(text: &str) -> Option<usize>
    ensures { result ≡ position stops text.now }
{
    text.bytes().position(|b| stops_word(b))
}

impl<'a> Words<'a> {
    /// The words of a line, up to its comment.
    pub(crate) fn of(line: &'a str) -> Words<'a>
        ensures { result.rest.now ≡ line.now }
    {
        Words { rest: line }
    }
}

impl<'a> Iterator for Words<'a> {
    type Item = &'a str;

    ghost next_gives = { YieldsFirstRef left };

    ghost remaining = { item_count left };

    // One pass over the bytes, in place of a search of its own for the comment and one for gaps by characters. A call for each word,
    // not inlined, cost a third more on long lists.
    #[inline(always)]
    fn next(&mut self) -> Option<&'a str> {
        let text = self.rest.trim_start_matches(GAPS);
        let len = first_stop(text).unwrap_or(text.len());
        if len == 0 {
            return None;
        }
        let (word, rest) = text.split_at(len);
        self.rest = rest;
        Some(word)
    }
}
