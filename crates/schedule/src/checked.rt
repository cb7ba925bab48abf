// A plan that keeps the rules.
ghost use Rattle.schedule.specs.Rules.{Good};
ghost use Rattle.schedule.specs.Drafts.{plan_of};
ghost use Rattle.schedule.specs.Props.{good_prop};

use crate::draft::Draft;

pub mod answers;
pub mod check;

/// A plan that has passed the check, the only way to make one.
#[derive(Drop)]
pub struct CheckedPlan {
    draft: Draft,
    ghost good: { Good (plan_of draft) } by { good_prop (plan_of draft) },
}
