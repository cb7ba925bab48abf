// A choice of either of two kinds: of two selections it is a selection, of two clocks a clock.
ghost use Rattle.std.specs.Prelude.{◌≡◌, bit_or};
ghost use Rattle.std.proofs.lemmas.Nat.{or_lt};
ghost use Rattle.egress.specs.Either.{either, both};
ghost use Rattle.egress.specs.declared.choice.Choice.TheVariants.{First, Second};
ghost use Rattle.egress.specs.Masks.{in_or_l, in_or_r};

use crate::clock::{Clock, Exact};
use crate::selection::Selection;
use crate::shaper::Shaper;
use crate::shifted::Shifted;
use crate::stepped::Stepped;
use crate::strict::StrictPriority;

/// What a port selects by: strict priority or the shaper.
pub type StrictOrShaper = Choice<StrictPriority, Shaper>;

/// What a port reads: a clock of any of the three kinds.
pub type AnyClock = Choice<Exact, Choice<Shifted, Stepped>>;

// An enum of its own: no `Result`, since neither kind is a failure, and no `dyn`, since a port has no heap.
/// Either of two kinds.
#[derive(Clone, Copy, Drop)]
pub enum Choice<A, B> {
    First(A),
    Second(B),
}

impl<A: Selection, B: Selection> Selection for Choice<A, B> {
    ghost MASK = { bit_or A.Selection.MASK B.Selection.MASK };

    ghost held = { either A.Selection.held B.Selection.held };

    ghost pick = { either A.Selection.pick B.Selection.pick };

    ghost passed = { λ s w x y. both (λ a. A.Selection.passed a w x y) (λ b. B.Selection.passed b w x y) s };

    const MASK: u8 = A::MASK | B::MASK;

    ghost spared = { or_lt 7 A.Selection.MASK B.Selection.MASK A.Selection.spared B.Selection.spared };

    ghost within = { elim [
      | First a ↦ let w = A.Selection.within a in record { mask = w.mask; among = λ c h. in_or_l c A.Selection.MASK B.Selection.MASK (w.among c h) }
      | Second b ↦ let w = B.Selection.within b in record { mask = w.mask; among = λ c h. in_or_r c A.Selection.MASK B.Selection.MASK (w.among c h) }
    ] };

    ghost picks = { elim [ First a ↦ A.Selection.picks a | Second b ↦ B.Selection.picks b ] };

    fn ask(&self, available: u8) -> Option<u8> {
        match self {
            Choice::First(a) => a.ask(available),
            Choice::Second(b) => b.ask(available),
        }
    }

    fn pass(&mut self, wire: Option<u8>, waiting: u8, gates: u8) {
        match self {
            Choice::First(a) => a.pass(wire, waiting, gates),
            Choice::Second(b) => b.pass(wire, waiting, gates),
        }
    }
}

impl<A: Clock, B: Clock> Clock for Choice<A, B> {
    ghost reading = { either A.Clock.reading B.Clock.reading };

    ghost bound = { either A.Clock.bound B.Clock.bound };

    ghost near = { elim [ First a ↦ A.Clock.near a | Second b ↦ B.Clock.near b ] };

    fn read(&self, t: u64) -> u64 {
        match self {
            Choice::First(a) => a.read(t),
            Choice::Second(b) => b.read(t),
        }
    }

    fn error_bound(&self) -> u64 {
        match self {
            Choice::First(a) => a.error_bound(),
            Choice::Second(b) => b.error_bound(),
        }
    }
}
