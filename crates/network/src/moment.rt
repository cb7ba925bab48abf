// What a tick is to the ports.
ghost use Rattle.std.specs.Prelude.{◌≡◌, ◌^◌, ◌<◌, ◌≤◌, length};
ghost use Rattle.gates.specs.Lookup.{octets};
ghost use Rattle.network.specs.Due.{some_due};

use crate::row::Row;
use gates::timetable::Timetable;
use schedule::checked::CheckedPlan;

// The true tick t at a port: the plan in force, the gates that the port follows, what its clock reads, and which gates are open then.
#[derive(Clone, Copy)]
pub(crate) struct Moment<'a> {
    pub(crate) plan: &'a CheckedPlan,
    pub(crate) gates: &'a Timetable,
    pub(crate) t: u64,
    pub(crate) reading: u64,
    pub(crate) octet: u8,
    ghost early: { t < 2 ^ 49 },
    ghost open: { octet ≡ octets gates.now reading },
}

// Step 1 of tick t: the plan in force, the rows as they were before it, and whether any frame comes to the end of its link.
#[derive(Clone, Copy)]
pub(crate) struct Arrivals<'a> {
    pub(crate) plan: &'a CheckedPlan,
    pub(crate) rows: &'a [Row],
    pub(crate) t: u64,
    pub(crate) any: bool,
    ghost early: { t < 2 ^ 49 },
    ghost few: { length rows.now ≤ 16 },
    ghost told: { any ≡ some_due t rows.now },
}
