// Making a timetable, and changing it.
ghost use Rattle.std.specs.Prelude.{◌≡◌, None};
ghost use Rattle.gates.specs.Lookup.{followed_by, settled, released};

use super::{Rotation, Timetable};
use crate::list::GateList;
use std::mem::replace;

impl Timetable {
    /// One list that goes round from its base on.
    pub fn new(list: GateList, base: u64) -> Timetable
        ensures { (result.current.list ≡ list) × (result.current.base ≡ base) × (result.next ≡ None) }
    {
        Timetable {
            current: Rotation { list, base },
            next: None,
        }
    }

    /// From a tick on another list is followed, in the place of any that was to come.
    pub fn follow(&mut self, list: GateList, from: u64)
        ensures { self.new ≡ followed_by self.old list from }
    {
        self.next = Some(Rotation { list, base: from });
    }

    /// The next list, if there is one, takes the place of the first, with the tick of its begin as the base. The first is given back, for its memory.
    pub fn settle(&mut self) -> Option<GateList>
        ensures { (self.new ≡ settled self.old) × (result ≡ released self.old) }
    {
        let next = self.next.take()?;
        let Rotation { list, base: _ } = replace(&mut self.current, next);
        Some(list)
    }
}
