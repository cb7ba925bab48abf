// Strict priority: the highest available class, none held back (IEEE 802.1Q, 8.6.8.1).
ghost use Rattle.std.specs.Prelude.{◌≡◌, ℕ};
ghost use Rattle.std.proofs.Common.{sym, ap, lit<};
ghost use Rattle.egress.specs.Mask.{highest};
ghost use Rattle.egress.specs.Masks.{highest_picks, left_none, none_within};

use crate::selection::Selection;

/// Replies the highest available class, and has no state.
#[derive(Clone, Copy)]
pub struct StrictPriority;

// The highest class of a set, by the leading zeros of its mask.
pub(crate) fn highest_class(classes: u8) -> Option<u8>
    ensures { result ≡ highest classes }
{
    if classes == 0 {
        return None;
    }
    // a class has few bits, and the cast is proved to lose none: `try_from` would have an error that cannot come
    Some((7 - classes.leading_zeros()) as u8)
}

impl Selection for StrictPriority {
    ghost MASK = { 0 };

    ghost held = { λ _. 0 };

    ghost pick = { λ _ a. highest a };

    ghost passed = { λ s _ _ _. s };

    const MASK: u8 = 0;

    ghost spared = { lit< tt };

    ghost within = { λ _. none_within };

    ghost picks = { λ s. highest_picks 0 highest (lit< tt) (λ a l. ap highest (sym (left_none a l))) };

    fn ask(&self, available: u8) -> Option<u8> {
        highest_class(available)
    }

    fn pass(&mut self, wire: Option<u8>, waiting: u8, gates: u8) {}
}
