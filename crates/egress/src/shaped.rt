// A shaped class.
ghost use Rattle.std.specs.Prelude.{◌≡◌, ℕ, ◌<◌, ◌≤◌, Bool, true, false, ℤ, pos, negsuc, ◌≤ℤ◌, IfOk, IfErr, int_lt};
ghost use Rattle.egress.specs.declared.setting.Refused.TheVariants.{Slope};

use crate::setting::Refused;

// The greatest slope, in thousandths of the link.
const MOST_SLOPE: u16 = 999;

// A credit stops here, and at the same below 0.
const MOST_CREDIT: i32 = 2_000_000;

// What a class on the wire loses at each tick, in thousandths: the whole link.
const LINK: i32 = 1000;

/// The slope is the class's part of the link, in thousandths; the credit gains it at each tick that the class waits.
#[derive(Clone, Copy)]
pub struct Shaped {
    slope: u16,
    credit: i32,
    ghost share: { (0 < slope) × (slope < 1000) },
    ghost limited: { (negsuc 1999999 ≤ℤ credit) × (credit ≤ℤ pos 2000000) },
}

impl Shaped {
    ghost use Rattle.egress.specs.Credit.{stopped, credited, turned};
    ghost use Rattle.egress.specs.Settings.{slope_fits};

    // A class with nothing to its credit.
    pub(crate) fn new(class: u8, slope: u16) -> Result<Shaped, Refused>
        ensures made { IfOk result (λ s. (slope_fits slope ≡ true) × (s.slope ≡ slope) × (s.credit ≡ pos 0)) }
        ensures refused { IfErr result (λ e. (slope_fits slope ≡ false) × (e ≡ Slope class slope)) }
    {
        if !(1..=MOST_SLOPE).contains(&slope) {
            return Err(Refused::Slope { class, slope });
        }
        Ok(Shaped { slope, credit: 0 })
    }

    pub(crate) fn credit(&self) -> i32
        ensures { result ≡ self.now.credit }
    {
        self.credit
    }

    // Whether the class is held back.
    pub(crate) fn in_debt(&self) -> bool
        ensures { result ≡ int_lt self.now.credit (pos 0) }
    {
        self.credit < 0
    }

    // No credit goes beyond the limits.
    fn stop(credit: i32) -> i32
        ensures { result ≡ stopped credit }
    {
        credit.clamp(-MOST_CREDIT, MOST_CREDIT)
    }

    // The credit after a pass, by the first case that fits. An enum of the cases would only say them once more.
    fn next_credit(&self, wire: bool, waits: bool, gate: bool) -> i32
        ensures { result ≡ credited self.now.credit self.now.slope wire waits gate }
    {
        // read here and not in the cases, which then take fewer jumps
        let credit = self.credit;
        let slope = i32::from(self.slope);
        if wire {
            Self::stop(credit + slope - LINK)
        } else if !waits {
            0
        } else if !gate {
            credit
        } else {
            Self::stop(credit + slope)
        }
    }

    pub(crate) fn pass(&mut self, wire: bool, waits: bool, gate: bool)
        ensures { self.new ≡ turned self.old wire waits gate }
    {
        self.credit = self.next_credit(wire, waits, gate);
    }
}
