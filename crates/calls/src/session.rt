// What stands between the calls of a scenario.
use schedule::checked::CheckedPlan;
use schedule::draft::Draft;

pub mod perform;

/// The draft in hand and the checked plan, as far as there are any.
#[derive(Drop)]
pub struct Session {
    draft: Option<Draft>,
    plan: Option<CheckedPlan>,
}
