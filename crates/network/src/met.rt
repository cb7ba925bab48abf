// What the guarantee supposes holds of every plan that passed the check, and of every selection and clock by the laws of its kind.
ghost use Rattle.std.specs.Prelude.{ℕ, ◌≤◌, List};
ghost use Rattle.std.specs.List.{AllByRecursion};
ghost use Rattle.schedule.specs.Checks.{checked_plan};
ghost use Rattle.network.specs.Lawful.{Fit, ClocksNear, Lawful, meaning};
ghost use Rattle.network.specs.Tables.{reads};

use egress::clock::Clock;
use egress::selection::Selection;
use schedule::checked::CheckedPlan;

/// A plan that passed the check is fit.
pub fn checked_plan_is_fit(plan: &CheckedPlan)
    ensures { Fit (checked_plan plan.now) }
{}

/// A selection of any kind is lawful.
pub fn selection_is_lawful<S: Selection>()
    ensures { Lawful (meaning S.Selection.held S.Selection.pick S.Selection.passed) }
{}

/// Clocks of any kind are near, if the bound of each is at most the error.
pub fn clocks_are_near<K: Clock>()
    ensures { (error : ℕ) (ks : List K) → AllByRecursion (λ k. K.Clock.bound k ≤ error) ks → ClocksNear error (reads K.Clock.reading ks) }
{}
