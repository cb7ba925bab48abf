// A waiting line, first in first out: a ring over slots that the caller lends, so that taking the first costs the same however many wait.
// No `VecDeque`: a port has no heap, and the slots may as well be an array as part of a `Vec`.
ghost use Rattle.std.specs.Prelude.{◌≡◌, ℕ, ◌+◌, ◌-◌, ◌<◌, ◌≤◌, length, is_ok, Some, None, nat_lt};
ghost use Rattle.egress.specs.Waiting.{empty_line, begins, number, round, waits, front, rest, joined, stored, longer, shorter};

/// Where the first entry stands and how many wait. The entries themselves stand in the slots.
#[derive(Clone, Copy)]
pub struct Line {
    head: usize,
    count: usize,
}

/// Every slot is taken.
#[derive(Clone, Copy, Debug)]
pub struct Full;

// The slot k after `head`, going on at slot 0 after the last. No `%`: `head + k` may be beyond a usize, where entries have no size.
fn slot_after(head: usize, k: usize, room: usize) -> usize
    requires { (head < room) × (k ≤ room) }
    ensures { (result ≡ round room head k) × (result < room) }
{
    if k < room - head {
        head + k
    } else {
        k - (room - head)
    }
}

impl Line {
    /// A line in which nothing waits, over whatever slots.
    pub fn new() -> Line
        ensures { result ≡ empty_line }
    {
        Line { head: 0, count: 0 }
    }

    // The slot of the first entry.
    fn start(&self, room: usize) -> usize
        ensures { result ≡ begins room self.now }
    {
        if self.head < room { self.head } else { 0 }
    }

    /// How many wait.
    #[tactic(auto, using(crate::proofs::Rings::length_waits))]
    pub fn len<T>(&self, slots: &[T]) -> usize
        ensures number { result ≡ number (length slots.now) self.now }
        ensures list { result ≡ length (waits slots.now self.now) }
    {
        self.count.min(slots.len())
    }

    /// Puts `entry` last. A full line refuses and stays as it was.
    #[tactic(auto, using(crate::proofs::Rings::length_waits, crate::proofs::Rings::more_waits))]
    pub fn push<T: Copy>(&mut self, slots: &mut [T], entry: T) -> Result<(), Full>
        ensures reply { is_ok result ≡ nat_lt (length (waits slots.old self.old)) (length slots.old) }
        ensures waiting { waits slots.new self.new ≡ joined (length slots.old) entry (waits slots.old self.old) }
        ensures slots { slots.new ≡ stored slots.old self.old entry }
        ensures line { self.new ≡ longer (length slots.old) self.old }
    {
        let room = slots.len();
        let count = self.len(slots);
        if count < room {
            let head = self.start(room);
            slots[slot_after(head, count, room)] = entry;
            *self = Line {
                head,
                count: count + 1,
            };
            Ok(())
        } else {
            Err(Full)
        }
    }

    /// The first of those that wait.
    pub fn first<T: Copy>(&self, slots: &[T]) -> Option<T>
        ensures { result ≡ front (waits slots.now self.now) }
    {
        let mut ahead = *self;
        ahead.take(slots)
    }

    /// Takes the first of those that wait.
    #[tactic(auto, using(crate::proofs::Rings::none_waits, crate::proofs::Rings::first_waits, crate::proofs::Rings::less_waits))]
    pub fn take<T: Copy>(&mut self, slots: &[T]) -> Option<T>
        ensures reply { result ≡ front (waits slots.now self.old) }
        ensures waiting { waits slots.now self.new ≡ rest (waits slots.now self.old) }
        ensures line { self.new ≡ shorter (length slots.now) self.old }
    {
        let room = slots.len();
        let count = self.len(slots);
        if count == 0 {
            return None;
        }
        let head = self.start(room);
        let entry = slots[head];
        *self = Line {
            head: slot_after(head, 1, room),
            count: count - 1,
        };
        Some(entry)
    }
}
