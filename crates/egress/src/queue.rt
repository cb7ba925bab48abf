// A waiting line with the slots that it is laid over.
ghost use Rattle.std.specs.Prelude.{◌≡◌, ℕ, [], length, replicate, is_ok, nat_lt};
ghost use Rattle.egress.specs.Lines.{queued};
ghost use Rattle.egress.specs.Waiting.{empty_line, front, rest, joined, stored, longer, shorter};

use crate::line::{Full, Line};

// Not the library's `Default`: of a type that is not known it promises no one value.
/// What can wait in a queue.
pub trait Entry: Copy {
    // what stands in a slot before any entry does
    ghost BLANK: { Self };

    /// The same, for code.
    const BLANK: Self;
}

// No `impl Model`: the contracts say what the slots hold too, and not only what waits.
/// Room for N entries, and the line of those that wait.
#[derive(Clone, Copy)]
pub struct Queue<T, const N: usize> {
    slots: [T; N],
    line: Line,
}

impl<T: Entry, const N: usize> Queue<T, N> {
    /// A queue in which nothing waits.
    #[tactic(auto, using(crate::proofs::Rings::none_waits))]
    pub fn new() -> Queue<T, N>
        ensures waiting { queued result ≡ [] }
        ensures memory { (result.slots ≡ replicate N T.BLANK) × (result.line ≡ empty_line) }
    {
        Queue {
            slots: [T::BLANK; N],
            line: Line::new(),
        }
    }

    /// How many wait.
    pub fn len(&self) -> usize
        ensures { result ≡ length (queued self.now) }
    {
        self.line.len(&self.slots)
    }

    /// Puts one last. A full queue refuses and stays as it was.
    pub fn push(&mut self, entry: T) -> Result<(), Full>
        ensures reply { is_ok result ≡ nat_lt (length (queued self.old)) N }
        ensures waiting { queued self.new ≡ joined N entry (queued self.old) }
        ensures memory { (self.new.slots ≡ stored self.old.slots self.old.line entry) × (self.new.line ≡ longer N self.old.line) }
    {
        self.line.push(&mut self.slots, entry)
    }

    /// The first of those that wait.
    pub fn first(&self) -> Option<T>
        ensures { result ≡ front (queued self.now) }
    {
        self.line.first(&self.slots)
    }

    /// Takes the first of those that wait.
    pub fn take(&mut self) -> Option<T>
        ensures reply { result ≡ front (queued self.old) }
        ensures waiting { queued self.new ≡ rest (queued self.old) }
        ensures memory { (self.new.slots ≡ self.old.slots) × (self.new.line ≡ shorter N self.old.line) }
    {
        self.line.take(&self.slots)
    }
}
