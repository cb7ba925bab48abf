// The credit-based shaper: classes 6 and 5 wait while they are in debt (IEEE 802.1Q, 8.6.8.2).
ghost use Rattle.std.specs.Prelude.{◌≡◌, ℕ, ◌<◌, ℤ, pos, Option, int_lt, refl};
ghost use Rattle.egress.specs.Mask.{has, sends, left, highest};
ghost use Rattle.egress.specs.Credit.{credited, credit_of, held_back, passed_on};
ghost use Rattle.egress.specs.Settings.{MadeShaper};
ghost use Rattle.egress.specs.Masks.{highest_picks, held_within};
ghost use Rattle.std.proofs.Common.{lit<};

use crate::selection::Selection;
use crate::setting::Refused;
use crate::shaped::Shaped;
use crate::strict::highest_class;

// Two fields and no array: contracts name the two classes.
/// The two shaped classes.
#[derive(Clone, Copy)]
pub struct Shaper {
    six: Shaped,
    five: Shaped,
}

// Whether a class is in a set. (`gates` asks the same of octets; neither crate stands on the other.)
fn is_in(set: u8, class: u8) -> bool
    requires { class < 8 }
    ensures { result ≡ has set class }
{
    (set >> class) % 2 == 1
}

// Whether a class is the one on the wire.
fn is_sent(wire: Option<u8>, class: u8) -> bool
    ensures { result ≡ sends wire class }
{
    wire == Some(class)
}

impl Shaper {
    /// A shaper with these slopes for classes 6 and 5, each 1 to 999, and no credit.
    pub fn new(six: u16, five: u16) -> Result<Shaper, Refused>
        ensures { MadeShaper six five result }
    {
        Ok(Shaper {
            six: Shaped::new(6, six)?,
            five: Shaped::new(5, five)?,
        })
    }

    /// The credit of a class, if it is a shaped one.
    pub fn credit(&self, class: u8) -> Option<i32>
        ensures { result ≡ credit_of self.now class }
    {
        match class {
            6 => Some(self.six.credit()),
            5 => Some(self.five.credit()),
            _ => None,
        }
    }

    fn held(&self) -> u8
        ensures { result ≡ held_back self.now }
    {
        let six = if self.six.in_debt() { 64 } else { 0 };
        let five = if self.five.in_debt() { 32 } else { 0 };
        six + five
    }
}

impl Selection for Shaper {
    ghost MASK = { 96 };

    ghost held = { held_back };

    ghost pick = { λ s a. highest (left a (held_back s)) };

    ghost passed = { passed_on };

    const MASK: u8 = 96;

    ghost spared = { lit< tt };

    ghost within = { λ s. held_within (int_lt s.six.credit (pos 0)) (int_lt s.five.credit (pos 0)) };

    ghost picks = { λ s. let h = held_back s in highest_picks h (λ a. highest (left a h)) (held_within (int_lt s.six.credit (pos 0)) (int_lt s.five.credit (pos 0))).mask (λ a l. refl) };

    fn ask(&self, available: u8) -> Option<u8> {
        highest_class(available & !self.held())
    }

    fn pass(&mut self, wire: Option<u8>, waiting: u8, gates: u8)
        ensures state { self.new ≡ passed_on self.old wire waiting gates }
        ensures slopes { (self.new.six.slope ≡ self.old.six.slope) × (self.new.five.slope ≡ self.old.five.slope) }
        ensures six { self.new.six.credit ≡ credited self.old.six.credit self.old.six.slope (sends wire 6) (has waiting 6) (has gates 6) }
        ensures five { self.new.five.credit ≡ credited self.old.five.credit self.old.five.slope (sends wire 5) (has waiting 5) (has gates 5) }
    {
        self.six
            .pass(is_sent(wire, 6), is_in(waiting, 6), is_in(gates, 6));
        self.five
            .pass(is_sent(wire, 5), is_in(waiting, 5), is_in(gates, 5));
    }
}
